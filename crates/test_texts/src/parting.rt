//! Where two texts part.

/// What stands for a line where a text has none.
const NO_LINE: &str = "(no line)";

/// The first line in which two texts differ.
pub(crate) struct Parting<'a> {
    /// Its number, from 1.
    pub(crate) line: u64,
    /// The three lines before it, which both texts have.
    pub(crate) before: [&'a str; 3],
    pub(crate) observed: &'a str,
    pub(crate) expected: &'a str,
}

impl<'a> Parting<'a> {
    /// Where what was observed differs from what was expected. Of texts with the same lines, as where one lacks its last
    /// newline, it is behind the last one.
    pub(crate) fn of(observed: &'a str, expected: &'a str) -> Parting<'a> {
        let mut parting = Parting {
            line: 1,
            before: [NO_LINE; 3],
            observed: NO_LINE,
            expected: NO_LINE,
        };
        let mut others = expected.lines();
        for line in observed.lines() {
            let other = others.next();
            if other != Some(line) {
                parting.observed = line;
                parting.expected = other.unwrap_or(NO_LINE);
                return parting;
            }
            parting.pass(line);
        }
        parting.expected = others.next().unwrap_or(NO_LINE);
        parting
    }

    fn pass(&mut self, line: &'a str) {
        let [_, second, first] = self.before;
        self.before = [second, first, line];
        self.line = self.line.saturating_add(1);
    }
}
