// Whether a whole channel is valid: what `validate` answers, but for number and place. Nothing branches on the record's bytes, so that
// bytes which the processor has not learnt cost no more than others.
ghost use Rattle.std.specs.Prelude.{◌≡◌, ℕ, length};
ghost use Rattle.fields.specs.Rule.{is_valid};
ghost use Rattle.channel.specs.Rule.{head_rule_by, texts_rule, location_rule, fm_rule, dmr_rule, m17_rule, info_rule, channel_rule_by, channel_rule};

use bits::Nibbles;
use channel::values::{fraction_ok, latitude_fraction_ok, latitude_ok, operation_ok, slot_ok};
use fields::numbers::le16;
use fields::rule::pick;
use text::text_ok;
use tones::tone_ok;

fn head_valid(s: &[u8], traits: bool) -> bool
    requires { length s.now ≡ 90 }
    ensures { (base : ℕ) → result ≡ is_valid (head_rule_by traits s.now base) }
{
    (s[0] <= 2) & (traits & ((s[11] <= 250) & (s[12] <= 128)))
}

fn texts_valid(s: &[u8]) -> bool
    requires { length s.now ≡ 90 }
    ensures { (base : ℕ) → result ≡ is_valid (texts_rule s.now base) }
{
    text_ok(&s[13..45]) & text_ok(&s[45..77])
}

fn location_valid(s: &[u8]) -> bool
    requires { length s.now ≡ 90 }
    ensures { (base : ℕ) → result ≡ is_valid (location_rule s.now base) }
{
    let floor = s[77];
    let above = latitude_fraction_ok(floor, le16(s, 78));
    let beyond = fraction_ok(le16(s, 81));
    latitude_ok(floor) & (above & beyond)
}

fn fm_valid(s: &[u8]) -> bool
    requires { length s.now ≡ 90 }
    ensures { (base : ℕ) → result ≡ is_valid (fm_rule s.now base) }
{
    let pads = (s[87] == 0) & ((s[88] == 0) & (s[89] == 0));
    tone_ok(s[85]) & (tone_ok(s[86]) & pads)
}

fn dmr_valid(s: &[u8], named: bool) -> bool
    requires { length s.now ≡ 90 }
    ensures { (base : ℕ) → result ≡ is_valid (dmr_rule s.now base named) }
{
    slot_ok(s[86]) & (named & (s[89] == 0))
}

fn m17_valid(s: &[u8], named: bool) -> bool
    requires { length s.now ≡ 90 }
    ensures { (base : ℕ) → result ≡ is_valid (m17_rule s.now base named) }
{
    let h = Nibbles::from(s[86]);
    operation_ok(h.high, h.low) & ((s[87] <= 1) & named)
}

// All three modes are validated, and the channel's own is picked.
fn info_valid(s: &[u8], named: bool) -> bool
    requires { length s.now ≡ 90 }
    ensures { (base : ℕ) → result ≡ is_valid (info_rule s.now base named) }
{
    let digital = pick(
        s[0] == channel::DMR,
        dmr_valid(s, named),
        m17_valid(s, named),
    );
    pick(s[0] == channel::FM, fm_valid(s), digital)
}

// Of a channel's 90 bytes. Whether its contact index names a contact of the file comes in as `named`, whether its traits byte is within its
// rule as `traits`.
pub fn is_valid_by(s: &[u8], named: bool, traits: bool) -> bool
    requires { length s.now ≡ 90 }
    ensures { (base : ℕ) → result ≡ is_valid (channel_rule_by (head_rule_by traits s.now base) s.now base named) }
{
    // for the compiler, which does not know the length where this is not compiled into its caller
    let all = &s[0..90];
    let head = head_valid(all, traits);
    let texts = texts_valid(all);
    let location = location_valid(all);
    head & (texts & (location & info_valid(all, named)))
}

#[tactic(auto, unfolding(channel::specs::Rule::channel_rule, channel::specs::Rule::head_rule))]
pub fn is_valid(s: &[u8], named: bool) -> bool
    requires { length s.now ≡ 90 }
    ensures { (base : ℕ) → result ≡ is_valid (channel_rule s.now base named) }
{
    is_valid_by(s, named, bits::number_flag_ok(s[1]))
}
