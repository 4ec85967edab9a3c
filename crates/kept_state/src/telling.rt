//! How the lines of a state are told.
ghost use Rattle.std.specs.Prelude.{◌≡◌, ◌+◌, min, IfOk};
ghost use Rattle.kept_state.specs.Telling.{TellsLine, TellsText, TellsWithin, count_of, first_word as first_word_lem, is_of_state as is_of_state_lem};

/// Who is told the lines of a state.
pub trait Hearer {
    ghost use Rattle.std.specs.Prelude.{ℕ, Bool, List, IfOk};

    /// Why a line could not be told.
    type Fault;

    /// What a line makes of who hears it, and whether it is refused.
    ghost hears: { Self → List ℕ → Bool → Self → Type 0 };

    /// Hears a line, and says whether it is refused.
    fn hear(&mut self, line: &str) -> Result<bool, Self::Fault>
        ensures { IfOk result (λ is_refused. hears self.old line.now is_refused self.new) };
}

/// Where in a text it is told.
#[derive(Clone, Copy, PartialEq, Eq)]
enum Course {
    /// Outside of command lists.
    Alone,
    /// In a command list, of which no line was refused yet.
    Within,
    /// In a command list, behind a line that was refused.
    PassedOver,
}

/// Tells each line of a text, and counts those that are refused. A line that is refused is passed over, and in a command
/// list those behind it; all others are told, whatever became of those before them.
pub fn tell_lines<H: Hearer>(hearer: &mut H, text: &str) -> Result<u64, H::Fault>
    ensures { IfOk result (TellsText H.hears text.now hearer.old hearer.new) }
{
    let mut refused: u64 = 0;
    let mut course = Course::Alone;
    'told: for line in text.lines() {
        let (is_refused, next) = tell_line(hearer, course, line)?;
        refused = counted(refused, is_refused);
        course = next;
    }
    Ok(refused)
}

fn counted(refused: u64, is_refused: bool) -> u64
    ensures { result ≡ min (refused + count_of is_refused) 18446744073709551615 }
{
    if is_refused {
        refused.saturating_add(1)
    } else {
        refused
    }
}

/// Tells a line. Says whether it was refused, and where in the text it is told then.
fn tell_line<H: Hearer>(
    hearer: &mut H,
    course: Course,
    line: &str,
) -> Result<(bool, Course), H::Fault>
    ensures { IfOk result (λ told. TellsLine H.hears line.now course told.1 hearer.old told.0 hearer.new) }
{
    if line == "command_list_begin" {
        return Ok((false, Course::Within));
    }
    if line == "command_list_end" {
        return Ok((false, Course::Alone));
    }
    if line.is_empty() {
        return Ok((false, course));
    }
    match course {
        Course::PassedOver => Ok((false, Course::PassedOver)),
        Course::Alone => tell_alone(hearer, line),
        Course::Within => tell_within(hearer, line),
    }
}

/// Tells a line that stands alone. What becomes of it is nothing to those behind it.
fn tell_alone<H: Hearer>(hearer: &mut H, line: &str) -> Result<(bool, Course), H::Fault>
    ensures { IfOk result (λ told. H.hears hearer.old line.now told.0 hearer.new × (told.1 ≡ Course.Alone)) }
{
    let is_refused = hearer.hear(line)?;
    Ok((is_refused, Course::Alone))
}

/// Tells a line of a command list. Where it is refused, those behind it are passed over.
fn tell_within<H: Hearer>(hearer: &mut H, line: &str) -> Result<(bool, Course), H::Fault>
    ensures { IfOk result (TellsWithin H.hears line.now hearer.old hearer.new) }
{
    if hearer.hear(line)? {
        Ok((true, Course::PassedOver))
    } else {
        Ok((false, Course::Within))
    }
}

/// Whether a line begins with a command of a state.
pub fn is_of_state(line: &str) -> bool
    ensures { result ≡ is_of_state_lem line.now }
{
    matches!(
        first_word(line),
        "add"
            | "addid"
            | "consume"
            | "crossfade"
            | "disableoutput"
            | "enableoutput"
            | "moveoutput"
            | "newpartition"
            | "partition"
            | "pause"
            | "play"
            | "prio"
            | "random"
            | "repeat"
            | "seek"
            | "setvol"
            | "single"
            | "stop"
    )
}

/// What stands before the first space.
fn first_word(line: &str) -> &str
    ensures { result.now ≡ first_word_lem line.now }
{
    match line.split_once(' ') {
        Some((word, _rest)) => word,
        None => line,
    }
}
