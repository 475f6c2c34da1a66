// Whether all contacts of a file are valid, asked before the first bad one is looked for. Nothing branches on the contacts' bytes.
ghost use Rattle.std.specs.Prelude.{◌≡◌, true, ◌+◌, ◌≤◌, length};
ghost use Rattle.fields.specs.Rule.{is_valid};
ghost use Rattle.fields.specs.Rule.{Valid};
ghost use Rattle.file_rule.specs.File.{contact_at, contacts_rule};

use format::sizes::CONTACT_SIZE;
use layout::places::{contact_count, contact_place};
use m17::Edition;

pub(crate) fn contact_valid(f: &[u8], p: usize, edition: Edition) -> bool
    requires { p + 39 ≤ length f.now }
    ensures { result ≡ is_valid (contact_at edition f.now p) }
{
    contact_validation::whole::is_valid(&f[p..p + CONTACT_SIZE], edition)
}

// Yes only where every contact is valid.
#[tactic(auto, unfolding(file_rule::specs::File::contacts_rule, layout::specs::Places::contact_place), using(fields::proofs::Laws::valid_more, fields::proofs::Laws::valid_all, fields::proofs::Laws::valid_none))]
pub(crate) fn contacts_valid(f: &[u8], edition: Edition) -> bool
    ensures { result ≡ true → contacts_rule edition f.now ≡ Valid }
{
    let contacts = contact_count(f);
    if f.len() < contact_place(contacts) {
        return false;
    }
    let mut ok = true;
    for i in 0..contacts {
        ok &= contact_valid(f, contact_place(i), edition);
    }
    ok
}
