// The version of the declarations that this library was made for: LINK_SURVEY_VERSION in include/link_survey.h.
ghost use Rattle.std.specs.Prelude.{◌≡◌};

// The number that the header has too; a set compares the two.
#[unsafe(no_mangle)]
pub extern "C" fn link_survey_version() -> u32
    ensures { result ≡ 10 }
{
    10
}
