// The common ending of a byte slice and a list that is given in pieces.
ghost use Rattle.std.specs.Prelude.{◌≡◌};
ghost use Rattle.affixes.specs.Common.{common_suffix};
ghost use Rattle.std.specs.List.{flat_map};

use crate::common_suffix;

// The pieces are compared from the last one on, each as long as all of the one behind it agrees.
pub fn common_suffix_pieces(s: &[u8], pieces: &[&[u8]]) -> usize
    ensures { result ≡ common_suffix s.now (flat_map (λ p. p.now) pieces.now) }
{
    let mut e = 0;
    for i in (0..pieces.len()).rev() {
        let piece = pieces[i];
        let same = common_suffix(&s[..s.len() - e], piece);
        e += same;
        if same < piece.len() {
            return e;
        }
    }
    e
}
