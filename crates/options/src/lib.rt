// What the words of the command line ask of a program that replays a session file.
#![tactic(auto)]

ghost use Rattle.std.specs.Prelude.{◌≡◌, ◌≢◌, true, false, None, Ok, Err, IsSome, codes, string_bytes};
ghost use Rattle.options.specs.Words.{is_option};

pub mod fault;
#[cfg(test)]
mod tests;

use crate::fault::OptionFault;

#[derive(Clone, Copy, Default, PartialEq, Eq, Debug)]
pub enum Output {
    // for people
    #[default]
    Words,
    // one line for each frame, to compare engines by
    Lines,
}

#[derive(Default, Drop)]
pub struct Options {
    pub output: Output,
    // none: standard input
    pub path: Option<String>,
}

impl Options {
    // The options, with what the next word asks for.
    pub fn with(self, word: String) -> Result<Options, OptionFault>
        ensures lines { string_bytes word ≡ codes "--lines" → result ≡ Ok (record self { output = Output.Lines }) }
        ensures unknown { string_bytes word ≢ codes "--lines" → is_option (string_bytes word) ≡ true → result ≡ Err (OptionFault.Unknown word) }
        ensures file { is_option (string_bytes word) ≡ false → self.path ≡ None → result ≡ Ok (record self { path = Some word }) }
        ensures second { is_option (string_bytes word) ≡ false → IsSome self.path → result ≡ Err (OptionFault.SecondFile word) }
    {
        let text = word.as_str();
        if text == "--lines" {
            Ok(Options {
                output: Output::Lines,
                ..self
            })
        } else if text.as_bytes().starts_with(b"-") {
            Err(OptionFault::Unknown(word))
        } else if self.path.is_some() {
            Err(OptionFault::SecondFile(word))
        } else {
            Ok(Options {
                path: Some(word),
                ..self
            })
        }
    }
}
