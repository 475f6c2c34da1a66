// Validation of the header, the offset table and the banks (document 01, "The file").
#![tactic(auto)]

pub mod banks; // banks.rt: validation of the offset table and the banks
pub mod header; // header.rt: validation of the header
