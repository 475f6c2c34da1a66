// Settings: contact type in bits 0 and 1 (0 to 2), rx tone in bit 2, the rest zero (document 02, [5]).
ghost use Rattle.std.specs.Prelude.{◌≡◌};
ghost use Rattle.contact.specs.Contact.{settings_of, settings_number_flag};

use crate::Settings;
use bits::NumberFlag;

impl From<u8> for Settings {
    ghost from_gives = { λ b t. t ≡ settings_of b };

    #[tactic(auto, unfolding(crate::specs::Contact::settings_of))]
    fn from(b: u8) -> Settings {
        let c = NumberFlag::from(b);
        Settings {
            contact_type: c.number,
            rx_tone: c.flag,
        }
    }
}

impl From<Settings> for NumberFlag {
    ghost from_gives = { λ t c. c ≡ settings_number_flag t };

    #[tactic(auto, unfolding(crate::specs::Contact::settings_number_flag))]
    fn from(t: Settings) -> NumberFlag {
        NumberFlag {
            number: t.contact_type,
            flag: t.rx_tone,
        }
    }
}
