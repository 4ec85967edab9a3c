//! The lines of a client's command list.
use command_lists::{CommandList, ListCollector, ListForm, ListLine, Taken};
use std::alloc::{AllocError, Global};
use std::test::Fail;
use test_texts::{Recorder, wants};

/// Adds the form of a list, and each line after a bar.
fn add_list(recorder: &mut Recorder, list: &CommandList) {
    recorder.add(match list.form {
        ListForm::Plain => "plain",
        ListForm::ListOk => "ok",
    });
    for line in list.lines.items() {
        match line {
            ListLine::Text(text) => recorder.add(format_args!("|{}", text.as_str())),
            ListLine::NotText => recorder.add("|(no text)"),
        }
    }
}

/// Adds what a line was taken as.
fn add_taken(recorder: &mut Recorder, taken: Result<Taken, AllocError>) {
    match taken {
        Ok(Taken::Alone) => recorder.add("alone"),
        Ok(Taken::Begun) => recorder.add("begun"),
        Ok(Taken::Collected) => recorder.add("collected"),
        Ok(Taken::Ended(list)) => add_list(recorder, &list),
        Ok(Taken::TooLarge) => recorder.add("too large"),
        Err(_) => recorder.fail(),
    }
}

/// Adds what a line is taken as, and whether a list is open after it. `?` stands for a line that is no text, and
/// at `!` the open list is dropped.
fn add_line(recorder: &mut Recorder, alloc: Global, collector: &mut ListCollector, line: &str) {
    if line == "!" {
        collector.drop_list();
    }
    let line = if line == "?" { None } else { Some(line) };
    add_taken(recorder, collector.take(alloc, line));
    recorder.add(if collector.is_open() { " open\n" } else { "\n" });
}

fn session(alloc: Global, lines: &str) -> Result<String, AllocError> {
    let mut collector = ListCollector::new();
    let mut recorder = Recorder::new(alloc);
    for line in lines.lines() {
        add_line(&mut recorder, alloc, &mut collector, line);
    }
    recorder.into_text()
}

/// A list is collected to its end.
const COLLECTED: &str = "ping
command_list_begin
add \"a b\"
?

command_list_begin
\tcommand_list_end 
ping
 command_list_ok_begin
command_list_end
";

const COLLECTED_TOLD: &str = "alone
begun open
collected open
collected open
collected open
collected open
plain|add \"a b\"|(no text)||command_list_begin
alone
begun open
ok
";

/// Other lines begin and end no list.
const OTHERS: &str = "command_list_end
\"command_list_begin\"
command_list_begin x
Command_list_begin
command_list_ok_begin
command_list_end x
!
command_list_end
";

const OTHERS_TOLD: &str = "alone
alone
alone
alone
begun open
collected open
alone
alone
";

/// Lines, and what each is taken as.
const SESSIONS: &[(&str, &str)] = &[(COLLECTED, COLLECTED_TOLD), (OTHERS, OTHERS_TOLD)];

/// Adds whether a list with so many lines is too large with one more, and with its end; and then what the one
/// more is taken as.
fn add_full(recorder: &mut Recorder, alloc: Global, count: u32, line: &str, more: &str) {
    let mut collector = ListCollector::new();
    add_line(recorder, alloc, &mut collector, "command_list_begin");
    for _ in 0..count {
        if collector.take(alloc, Some(line)).is_err() {
            recorder.fail();
        }
    }
    let before = collector.is_too_large_with(Some(more));
    let end = collector.is_too_large_with(Some("command_list_end"));
    recorder.add(format_args!("{before} {end} "));
    add_line(recorder, alloc, &mut collector, more);
}

/// What is observed of lists of 127 lines and one more, of a byte more, and of 128 and an empty line more.
fn full_lists(alloc: Global) -> Result<String, AllocError> {
    let longer = "x".repeat(alloc, 16_384)?;
    let line = longer.as_str().get(..16_383).unwrap_or("");
    let mut recorder = Recorder::new(alloc);
    add_full(&mut recorder, alloc, 127, line, line);
    add_full(&mut recorder, alloc, 127, line, longer.as_str());
    add_full(&mut recorder, alloc, 128, line, "");
    recorder.into_text()
}

/// 128 lines of 16,383 bytes have 2,097,152 bytes with their newlines.
const FULL_LISTS_TOLD: &str = "begun open
false false collected open
begun open
true false too large
begun open
true false too large
";

#[test]
fn lists_of_lines(rt: HostRuntime) -> Result<(), Fail> {
    for (lines, tells) in SESSIONS.iter() {
        wants(session(rt.alloc(), lines), tells)?;
    }
    wants(full_lists(rt.alloc()), FULL_LISTS_TOLD)
}
