// Words told apart.
ghost use Rattle.std.specs.Prelude.{◌≡◌, cond};
ghost use Rattle.ask_arguments.specs.Arguments.{same};

// Whether two words are the same, byte for byte.
pub(crate) fn same(word: &[u8], name: &[u8]) -> bool
    ensures { result ≡ same word.now name.now }
{
    if word.len() != name.len() {
        return false;
    }
    for i in 0..word.len() {
        if word[i] != name[i] {
            return false;
        }
    }
    true
}

// `found` for a word that is the name, `other` for any other.
pub(crate) fn choose(word: &[u8], name: &[u8], found: u8, other: u8) -> u8
    ensures { result ≡ cond (same word.now name.now) found other }
{
    if same(word, name) { found } else { other }
}
