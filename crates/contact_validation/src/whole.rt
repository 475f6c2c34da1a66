// Whether a whole contact is valid: what `validate` answers, but for number and place. Nothing branches on the record's bytes.
ghost use Rattle.std.specs.Prelude.{◌≡◌, ℕ, length};
ghost use Rattle.fields.specs.Rule.{is_valid};
ghost use Rattle.contact.specs.Contact.{dmr_rule_by, m17_rule, contact_rule_by, contact_rule};

use fields::numbers::be48;
use fields::rule::pick;
use m17::Edition;
use text::text_ok;

fn dmr_valid(s: &[u8], settings: bool) -> bool
    requires { length s.now ≡ 39 }
    ensures { (base : ℕ) → result ≡ is_valid (dmr_rule_by settings s.now base) }
{
    settings & (s[38] == 0)
}

fn m17_valid(s: &[u8], edition: Edition) -> bool
    requires { length s.now ≡ 39 }
    ensures { (base : ℕ) → result ≡ is_valid (m17_rule edition s.now base) }
{
    m17::address_ok(be48(s, 33), edition)
}

// Of a contact's 39 bytes. Both modes are validated, and the contact's own is picked. Whether the settings byte is within its rule comes in
// as `settings`.
pub fn is_valid_by(s: &[u8], settings: bool, edition: Edition) -> bool
    requires { length s.now ≡ 39 }
    ensures { (base : ℕ) → result ≡ is_valid (contact_rule_by edition (dmr_rule_by settings s.now base) s.now base) }
{
    let mode = s[32];
    let info = pick(
        mode == contact::DMR,
        dmr_valid(s, settings),
        m17_valid(s, edition),
    );
    let kind = (mode == contact::DMR) | (mode == contact::M17);
    text_ok(&s[0..32]) & (kind & info)
}

#[tactic(auto, unfolding(contact::specs::Contact::contact_rule, contact::specs::Contact::dmr_rule))]
pub fn is_valid(s: &[u8], edition: Edition) -> bool
    requires { length s.now ≡ 39 }
    ensures { (base : ℕ) → result ≡ is_valid (contact_rule edition s.now base) }
{
    is_valid_by(s, bits::number_flag_ok(s[37]), edition)
}
