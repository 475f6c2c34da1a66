// The worked examples of document 01 and the numbers of document 02, [10], as facts about the definitions (proofs/PaperRows.antt).
#![tactic(auto)]
