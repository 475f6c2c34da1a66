// Files of the legacy reading (document 02, [5]): validated, and migrated in place.
ghost use Rattle.std.specs.Prelude.{◌≡◌};
ghost use Rattle.m17.specs.Edition.{edition_of};
ghost use Rattle.legacy.specs.Reading.{legacy_file_rule};
ghost use Rattle.legacy.specs.Migration.{migrated_by};
ghost use Rattle.legacy_validation.specs.Validation.{legacy_validation};
ghost use Rattle.capi_convert.specs.Files.{validate_answer};

use capi_convert::files::ValidateAnswer;
use m17::edition_of;

// Whether a file is accepted by the legacy reading, with its counts; beside a refusal they are 0.
pub fn codeplug_validate_legacy(file: &[u8], edition: u32) -> ValidateAnswer
    ensures { result ≡ validate_answer (legacy_validation (edition_of edition) file.now) }
{
    legacy_validation::validate(file, edition_of(edition)).into()
}

// The same answer; an accepted file is migrated, a refused one stays as lent.
pub fn codeplug_migrate(file: &mut [u8], edition: u32) -> ValidateAnswer
    ensures { (result ≡ validate_answer (legacy_validation (edition_of edition) file.old))
        × (file.new ≡ migrated_by (legacy_file_rule (edition_of edition) file.old) file.old) }
{
    migration::migrate(file, edition_of(edition)).into()
}
