// Files of the legacy reading (document 02, [5]): validated, and migrated in place.
ghost use Rattle.std.specs.Prelude.{◌≡◌};
ghost use Rattle.m17.specs.Edition.{edition_of};
ghost use Rattle.legacy.specs.Reading.{legacy_file_rule};
ghost use Rattle.legacy.specs.Migration.{migrated_by};
ghost use Rattle.legacy_validation.specs.Validation.{legacy_validation};
ghost use Rattle.capi_convert.specs.Files.{validate_answer};

use capi_convert::files::ValidateAnswer;

// Whether a file is accepted by the legacy reading, with its counts; beside a refusal they are 0.
#[unsafe(no_mangle)]
pub extern "C" fn codeplug_validate_legacy(file: &[u8], edition: u32) -> ValidateAnswer
    ensures { result ≡ validate_answer (legacy_validation (edition_of edition) file.now) }
{
    capi::legacy_files::codeplug_validate_legacy(file, edition)
}

// The same answer; an accepted file is migrated, a refused one stays as lent.
#[unsafe(no_mangle)]
pub extern "C" fn codeplug_migrate(file: &mut [u8], edition: u32) -> ValidateAnswer
    ensures { (result ≡ validate_answer (legacy_validation (edition_of edition) file.old))
        × (file.new ≡ migrated_by (legacy_file_rule (edition_of edition) file.old) file.old) }
{
    capi::legacy_files::codeplug_migrate(file, edition)
}
