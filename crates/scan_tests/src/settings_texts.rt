//! Texts as settings.
use settings::{OneLine, Settings, SettingsFault, settings};
use std::alloc::{AllocError, Global};
use std::test::Fail;
use test_texts::{Recorder, wants};

/// The settings that a text says, or the key for which it is refused.
fn observed(alloc: Global, before: &str, lines: &str) -> Result<String, AllocError> {
    let text = format!(in alloc; "{before}{lines}")?;
    match settings(alloc, text.as_str()) {
        Ok(settings) => line_of(alloc, &settings),
        Err(SettingsFault::BadSetting(key)) => format!(in alloc; "BadSetting({key})"),
        Err(SettingsFault::NoMemory) => Err(AllocError),
    }
}

fn line_of(alloc: Global, settings: &Settings) -> Result<String, AllocError> {
    let mut line = Recorder::new(alloc);
    add_settings(&mut line, settings);
    for output in &settings.outputs {
        let (name, path, enabled) = (output.name.as_str(), output.path.as_str(), output.enabled);
        line.add(format_args!(" {name}={path}:{enabled}"));
    }
    line.into_text()
}

fn add_settings(line: &mut Recorder, settings: &Settings) {
    let (music, listen) = (settings.music.as_str(), settings.listen.as_str());
    let (shelf, state) = (path_of(&settings.shelf), path_of(&settings.state));
    let (rate, start) = (settings.rate.frames(), settings.random_start);
    let (history, ring, kill) = (settings.history, settings.ring, settings.kill);
    line.add(format_args!(
        "{music} {listen} {shelf} {state} {rate} {start} {history} {ring} {kill}"
    ));
}

fn path_of(path: &Option<String>) -> &str {
    match path {
        Some(path) => path.as_str(),
        None => "-",
    }
}

/// The lines of a text, and after `=>` what they come to.
fn comes_to(alloc: Global, before: &str, lines: &str) -> Result<(), Fail> {
    let (lines, expected) = lines.split_once("=> ").unwrap_or((lines, "?"));
    wants(observed(alloc, before, lines), expected)
}

/// The same of each, with an empty line between them.
fn each_comes_to(alloc: Global, before: &str, texts: &str) -> Result<(), Fail> {
    for lines in texts.split("\n\n") {
        comes_to(alloc, before, lines)?;
    }
    Ok(())
}

/// The keys that must be there.
const NEEDED: &str = "music = \"/m\"\nlisten = \"127.0.0.1:0\"\n";

const ADDED: &str = "=> /m 127.0.0.1:0 - - 44100 0 4096 8192 false

shelf = \"/s\"
kill = true
=> /m 127.0.0.1:0 /s - 44100 0 4096 8192 true

state = \"/t\"
=> /m 127.0.0.1:0 - /t 44100 0 4096 8192 false

rate = 8000
history = 1
ring = 1024
=> /m 127.0.0.1:0 - - 8000 0 1 1024 false

rate = 192000
history = 65536
ring = 65536
=> /m 127.0.0.1:0 - - 192000 0 65536 65536 false

random_start = 9223372036854775807
=> /m 127.0.0.1:0 - - 44100 9223372036854775807 4096 8192 false

random_start = 0x10
=> /m 127.0.0.1:0 - - 44100 16 4096 8192 false

output = []
=> /m 127.0.0.1:0 - - 44100 0 4096 8192 false

[[output]]
name = \"b\"
path = \"/b\"
[[output]]
name = \"a\"
path = \"/a\"
enabled = false
=> /m 127.0.0.1:0 - - 44100 0 4096 8192 false b=/b:true a=/a:false

port = 1
=> BadSetting(port)

a.b = 1
=> BadSetting(a)

rate = 7999
=> BadSetting(rate)

rate = 192001
=> BadSetting(rate)

rate = 44100.0
=> BadSetting(rate)

history = 0
=> BadSetting(history)

history = 65537
=> BadSetting(history)

ring = 1023
=> BadSetting(ring)

ring = 65537
=> BadSetting(ring)

random_start = -1
=> BadSetting(random_start)

random_start = 9223372036854775808
=> BadSetting()

kill = 1
=> BadSetting(kill)

shelf = 1
=> BadSetting(shelf)

state = 1
=> BadSetting(state)

zone = 1
rate = 1
port = 1
=> BadSetting(port)

port = 1
Zone = 1
=> BadSetting(Zone)

\"é\" = 1
zone = 1
=> BadSetting(zone)

output = 1
=> BadSetting(output)

[output]
name = \"a\"
path = \"/a\"
=> BadSetting(output)

[[output]]
name = \"a\"
=> BadSetting(output)

[[output]]
name = \"a\"
path = \"/p\"
[[output]]
name = \"A\"
path = \"/p\"
=> /m 127.0.0.1:0 - - 44100 0 4096 8192 false a=/p:true A=/p:true

[[output]]
name = \"a\"
path = \"/a\"
[[output]]
name = \"a\"
path = \"/b\"
=> BadSetting(output)

[[output]]
name = \"a\\nb\"
path = \"/a\"
=> BadSetting(output)

[[output]]
name = \"a\"
path = \"/a\"
port = 1
=> BadSetting(output)

[[output]]
name = \"a\"
path = \"/a\"
enabled = 1
=> BadSetting(output)";

const WHOLE: &str = "music = \"/m\"
=> BadSetting(listen)

listen = \"127.0.0.1:0\"
=> BadSetting(music)

=> BadSetting(listen)

# nothing
=> BadSetting(listen)

port = 1
=> BadSetting(port)

music = 1
=> BadSetting(music)

music
=> BadSetting()

music = \"/m\"
music = \"/m\"
=> BadSetting()

\"\" = 1
=> BadSetting()

listen = \"\"
music = \"\"
=>   - - 44100 0 4096 8192 false";

/// What comes of outputs with these names.
fn observed_of_outputs(alloc: Global, names: &str) -> Result<String, AllocError> {
    let mut lines = Recorder::new(alloc);
    for name in names.split(' ') {
        lines.add(format_args!("[[output]]\nname = \"{name}\"\npath = \"/{name}\"\n"));
    }
    observed(alloc, NEEDED, lines.into_text()?.as_str())
}

/// What is added to the keys that must be there, whole texts, and the most outputs.
#[test]
fn texts_as_settings(rt: HostRuntime) -> Result<(), Fail> {
    each_comes_to(rt.alloc(), NEEDED, ADDED)?;
    each_comes_to(rt.alloc(), "", WHOLE)?;
    wants(
        observed_of_outputs(rt.alloc(), "a b c d e f g h"),
        "/m 127.0.0.1:0 - - 44100 0 4096 8192 false a=/a:true b=/b:true c=/c:true d=/d:true e=/e:true f=/f:true g=/g:true h=/h:true",
    )?;
    wants(
        observed_of_outputs(rt.alloc(), "a b c d e f g a"),
        "BadSetting(output)",
    )?;
    wants(
        observed_of_outputs(rt.alloc(), "a b c d e f g h i"),
        "BadSetting(output)",
    )
}

/// What stands for control characters, and that all else stays.
#[test]
fn texts_in_one_line(rt: HostRuntime) -> Result<(), Fail> {
    let plain = OneLine("/m é\\n \"a\" ~");
    wants(format!(in rt.alloc(); "{plain}"), "/m é\\n \"a\" ~")?;
    let broken = OneLine("a\n\t\r\u{1b}[\u{0}\u{7f}\u{85}\u{a0}b");
    wants(
        format!(in rt.alloc(); "{broken}"),
        "a\\n\\t\\r\\u{1b}[\\u{0}\\u{7f}\\u{85}\u{a0}b",
    )
}
