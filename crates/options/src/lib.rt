// What the first word of a command line asks for, an option of the program corridor or none, and whether two words are the same. It leans on words for
// quoted text, on refusal for the words of a test. docs/SHEET.md, "Arguments"; the programs plan and clock ask it for an option, and plan for its files.
#![tactic(auto)]

ghost use Rattle.std.specs.Prelude.{◌≡◌};
ghost use Rattle.words.specs.Words.{text};
ghost use Rattle.options.specs.Option.{is_same, is_option, option_of};

// What the first word asks for: the help, a form of the sheet, an option that there is not; or it is no option.
#[derive(Clone, Copy, Debug, PartialEq, Eq)]
pub enum Asked {
    Help,
    Text,
    Svg,
    NoOption,
    NoSuch,
}

// Whether two runs have the same bytes.
#[tactic(auto, using(crate::specs::Same::same_bytes))]
pub fn same(a: &[u8], b: &[u8]) -> bool
    ensures { result ≡ is_same a.now b.now }
{
    a == b
}

// Whether a word begins as an option does.
#[tactic(auto, unfolding(crate::specs::Option::is_option))]
pub fn is_option(s: &[u8]) -> bool
    ensures { result ≡ is_option s.now }
{
    s.starts_with(b"--")
}

// What the first word asks for.
#[tactic(auto, unfolding(crate::specs::Option::option_of))]
pub fn option_of(s: &[u8]) -> Asked
    ensures { result ≡ option_of s.now }
{
    if same(s, b"--help") {
        Asked::Help
    } else if same(s, b"--text") {
        Asked::Text
    } else if same(s, b"--svg") {
        Asked::Svg
    } else if is_option(s) {
        Asked::NoSuch
    } else {
        Asked::NoOption
    }
}

// Whether a file's name stands for standard input.
pub fn is_input(s: &[u8]) -> bool
    ensures { result ≡ is_same s.now (text "-") }
{
    same(s, b"-")
}
