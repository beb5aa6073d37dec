// The refusals of a policy's settings.
use policy::refusal::PolicyRefusal;
use std::fmt;

// A refusal by its number, with what it means.
#[derive(Clone, Copy)]
pub struct SettingRefusalWords(pub PolicyRefusal);

impl fmt::Display for SettingRefusalWords {
    fn fmt<W: fmt::Write>(&self, f: &mut fmt::Formatter<W>) -> fmt::Result {
        let number = self.0.number();
        match self.0 {
            PolicyRefusal::BansFull => write!(
                f,
                "{number}: 64 pairs of clients are banned already"
            ),
            PolicyRefusal::NoCategory => write!(f, "{number}: a source category is not 1 to 5"),
        }
    }
}
