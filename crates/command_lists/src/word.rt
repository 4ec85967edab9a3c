//! The words that begin and end a command list.
ghost use Rattle.std.specs.Prelude.{◌≡◌};
ghost use Rattle.command_lists.specs.Words.{text_of, word_of, after_blanks as after_blanks_lem, before_blanks as before_blanks_lem};

/// How a command list is answered.
#[derive(Clone, Copy, PartialEq, Eq)]
pub enum ListForm {
    /// Once, at its end.
    Plain,
    /// With `list_OK` after each command that succeeds, too.
    ListOk,
}

/// A word that begins or ends a command list.
#[derive(Clone, Copy)]
pub enum ListWord {
    /// It begins a list of this form.
    Begin(ListForm),
    /// It ends a list.
    End,
}

const LIST_WORDS: [ListWord; 3] = [
    ListWord::Begin(ListForm::Plain),
    ListWord::Begin(ListForm::ListOk),
    ListWord::End,
];

impl ListWord {
    /// The word that is alone in a line, without quotes, with spaces and tabs before and after it.
    #[tactic(auto, unfolding(crate::specs::Words::word_of))]
    pub fn of_line(line: &str) -> Option<ListWord>
        ensures { result ≡ word_of line.now }
    {
        let text = before_blanks(after_blanks(line.as_bytes()));
        LIST_WORDS
            .iter()
            .copied()
            .find(|word| word.text().as_bytes() == text)
    }

    fn text(self) -> &'static str
        ensures { result.now ≡ text_of self }
    {
        match self {
            ListWord::Begin(ListForm::Plain) => "command_list_begin",
            ListWord::Begin(ListForm::ListOk) => "command_list_ok_begin",
            ListWord::End => "command_list_end",
        }
    }
}

/// The text without the spaces and tabs at its start.
fn after_blanks(text: &[u8]) -> &[u8]
    ensures { result.now ≡ after_blanks_lem text.now }
{
    let mut rest = text;
    while let [b' ' | b'\t', more @ ..] = rest {
        rest = more;
    }
    rest
}

/// The text without the spaces and tabs at its end.
#[tactic(auto, using(crate::proofs::Blanks::before_blanks_less, crate::proofs::Blanks::before_blanks_whole))]
fn before_blanks(text: &[u8]) -> &[u8]
    ensures { result.now ≡ before_blanks_lem text.now }
{
    let mut rest = text;
    while let [more @ .., b' ' | b'\t'] = rest {
        rest = more;
    }
    rest
}
