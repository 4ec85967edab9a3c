//! Whose a line of a script is.
ghost use Rattle.std.specs.Prelude.{◌≡◌};
ghost use Rattle.script_lines.specs.Lines.{shown, script_line_of};

use crate::cut::cut;

/// A line of a script, cut at its first space into a head and a rest.
#[derive(Clone, Copy)]
pub enum ScriptLine<'a> {
    /// A client's number, 1 to 9, and the line that it sends.
    Client(u32, &'a str),
    /// What follows the exclamation mark of a step.
    Step(&'a str),
    /// Neither.
    Bad,
}

impl<'a> ScriptLine<'a> {
    /// Reads the head: one digit from `1` to `9`, or `!`. A line without a space is all head, and its rest is
    /// empty.
    #[tactic(auto, unfolding(crate::specs::Lines::script_line_of))]
    pub fn of(line: &'a str) -> ScriptLine<'a>
        ensures { shown result ≡ script_line_of line.now }
    {
        let (head, rest) = cut(line, ' ');
        match head.as_bytes() {
            [b'!'] => ScriptLine::Step(rest),
            [digit @ b'1'..=b'9'] => ScriptLine::Client(u32::from(*digit - b'0'), rest),
            _ => ScriptLine::Bad,
        }
    }
}
