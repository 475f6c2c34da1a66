// What refuses an edit of an accepted file: 32 to 35, what reading its result gives, 36.
ghost use Rattle.std.specs.Prelude.{◌≡◌, not, length, eqb};
ghost use Rattle.fields.specs.Rule.{◌then◌, unless};
ghost use Rattle.fields.specs.Rule.{Valid};
ghost use Rattle.file_rule.specs.File.{file_rule};
ghost use Rattle.model.specs.Codeplug.{codeplug_of};
ghost use Rattle.model.specs.HasLayout.{HasLayout};
ghost use Rattle.model.specs.Kinds.{record_length};
ghost use Rattle.model.specs.EditRules.{place_ok, count_ok, in_use};
ghost use Rattle.edits.specs.Editing.{refuses_known};

use crate::in_use::in_use;
use crate::places::{count_ok, place_ok};
use edit_result::{result_length, result_validity};
use fields::rule::unless;
use format::refusals::{Reason, Refusal};
use m17::Edition;
use model::{Kind, record_length};

// What refuses an edit before its result is read.
#[tactic(auto, using(fields::proofs::Laws::ok_then, fields::proofs::Laws::err_then))]
fn early_refusal(f: &[u8], k: Kind, i: usize, j: usize, r: &[u8]) -> Result<(), Refusal>
    requires { HasLayout f.now }
    ensures { result ≡ unless (eqb (length r.now) (record_length k)) Reason.NoEdit 0
        then unless (place_ok k i j (codeplug_of f.now)) Reason.NoPlace 0
        then unless (count_ok k i (codeplug_of f.now)) Reason.Full 0
        then unless (not (in_use k i (codeplug_of f.now))) Reason.InUse 0 }
{
    unless(r.len() == record_length(k), Reason::NoEdit, 0)?;
    unless(place_ok(f, k, i, j), Reason::NoPlace, 0)?;
    unless(count_ok(f, k, i), Reason::Full, 0)?;
    unless(!in_use(f, k, i), Reason::InUse, 0)
}

// 32 (the record's length), 33, 34, 35, what reading the result gives, 36.
#[tactic(auto, unfolding(edits::specs::Editing::refuses_known), using(fields::proofs::Laws::ok_then, fields::proofs::Laws::err_then))]
pub fn refusal(
    f: &[u8],
    room: usize,
    k: Kind,
    i: usize,
    j: usize,
    r: &[u8],
    edition: Edition,
) -> Result<(), Refusal>
    requires { file_rule edition f.now ≡ Valid }
    ensures { result ≡ refuses_known edition k i j r.now room f.now }
{
    early_refusal(f, k, i, j, r)?;
    result_validity(f, k, i, j, r, edition)?;
    unless(result_length(f, k, i) <= room, Reason::NoRoom, 0)
}
