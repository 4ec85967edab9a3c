//! Channels, and the messages that wait for those who listen.
use idle_notes::{ChannelFault, Channels, Message, is_channel_name};
use std::alloc::{AllocError, Global};
use std::mem;
use std::test::Fail;
use test_texts::{Recorder, wants};

/// A call.
#[derive(Clone, Copy)]
enum Step {
    Subscribe(u32, &'static str),
    Unsubscribe(u32, &'static str),
    Send(&'static str, &'static str),
    /// The messages that wait for a client, which stay.
    Messages(u32),
    Read(u32),
    Leave(u32),
    Channels,
    /// What is asked of a client and a channel.
    Ask(u32, &'static str),
    /// How many messages wait for a client, and the last of them.
    Last(u32),
    Quietly(Quiet),
}

/// A step that tells nothing.
#[derive(Clone, Copy)]
enum Quiet {
    /// A client subscribes to each of these channels.
    SubscribeToAll(u32, &'static [&'static str]),
    /// A channel is sent so many messages.
    SendOften(&'static str, u32),
    Leave(u32),
    /// An image is taken.
    Keep,
    /// The channels and the image change places.
    Back,
}

/// Adds how a call ended.
fn add_end(recorder: &mut Recorder, end: Result<(), ChannelFault>) {
    match end {
        Ok(()) => recorder.add("ok"),
        Err(fault) => recorder.add(format_args!("{fault:?}")),
    }
}

fn add_messages(recorder: &mut Recorder, messages: &[Message]) {
    for message in messages {
        let (channel, text) = (message.channel.as_str(), message.text.as_str());
        recorder.add(format_args!("{channel}={text} "));
    }
}

fn add_read(recorder: &mut Recorder, channels: &mut Channels, client: u32) {
    add_messages(recorder, &channels.read(client));
}

fn add_names(recorder: &mut Recorder, alloc: Global, channels: &Channels) {
    let Ok(names) = channels.channels(alloc) else {
        return recorder.fail();
    };
    for name in names.as_slice() {
        recorder.add(format_args!("{name} "));
    }
}

fn add_asked(recorder: &mut Recorder, channels: &Channels, client: u32, name: &str) {
    let listens = channels.listens(client, name);
    let count = channels.count_of(client);
    let waits = channels.has_messages(client);
    let hears = channels.hears(name);
    let room = channels.has_room(name);
    recorder.add(format_args!(
        "listens {listens}, names {count}, waits {waits}, heard {hears}, room {room}"
    ));
}

/// Adds how many messages wait for a client, and the last of them.
fn add_last(recorder: &mut Recorder, channels: &Channels, client: u32) {
    let messages = channels.messages(client);
    let count = messages.len();
    match messages.last() {
        Some(message) => {
            let text = message.text.as_str();
            recorder.add(format_args!("{count}: {text}"));
        }
        None => recorder.add("none"),
    }
}

/// Takes a step that tells nothing, of channels and the image that is kept of them.
fn quietly(recorder: &mut Recorder, channels: &mut Channels, kept: &mut Channels, step: Quiet) {
    match step {
        Quiet::SubscribeToAll(client, names) => {
            for name in names {
                let _ = channels.subscribe(client, name);
            }
        }
        Quiet::SendOften(name, count) => {
            for _ in 0..count {
                let _ = channels.send(name, "again");
            }
        }
        Quiet::Leave(client) => channels.leave(client),
        Quiet::Keep => match channels.image() {
            Ok(image) => *kept = image,
            Err(_) => recorder.fail(),
        },
        Quiet::Back => mem::swap(channels, kept),
    }
}

/// Adds what a call answers, on a line.
fn add_answer(
    recorder: &mut Recorder,
    alloc: Global,
    channels: &mut Channels,
    kept: &mut Channels,
    step: &Step,
) {
    match step {
        Step::Subscribe(client, name) => add_end(recorder, channels.subscribe(*client, name)),
        Step::Unsubscribe(client, name) => add_end(recorder, channels.unsubscribe(*client, name)),
        Step::Send(name, text) => add_end(recorder, channels.send(name, text)),
        Step::Messages(client) => add_messages(recorder, channels.messages(*client)),
        Step::Read(client) => add_read(recorder, channels, *client),
        Step::Leave(client) => {
            channels.leave(*client);
            recorder.add("gone");
        }
        Step::Channels => add_names(recorder, alloc, channels),
        Step::Ask(client, name) => add_asked(recorder, channels, *client, name),
        Step::Last(client) => add_last(recorder, channels, *client),
        Step::Quietly(step) => return quietly(recorder, channels, kept, *step),
    }
    recorder.add("\n");
}

/// What new channels answer to these calls, with a line for each that is not quiet.
fn answers(alloc: Global, steps: &[Step]) -> Result<String, AllocError> {
    let mut recorder = Recorder::new(alloc);
    let mut channels = Channels::new(alloc);
    let mut kept = Channels::new(alloc);
    for step in steps {
        add_answer(&mut recorder, alloc, &mut channels, &mut kept, step);
    }
    recorder.into_text()
}

/// Who listens.
const LISTENERS: &[Step] = &[
    Step::Channels,
    Step::Ask(1, "news"),
    Step::Subscribe(1, "news"),
    Step::Subscribe(1, "news"),
    Step::Subscribe(2, "alarm"),
    Step::Subscribe(2, "news"),
    Step::Subscribe(1, "Zebra"),
    Step::Channels,
    Step::Ask(1, "news"),
    Step::Ask(1, "alarm"),
    Step::Unsubscribe(1, "alarm"),
    Step::Unsubscribe(3, "news"),
    Step::Unsubscribe(1, "news"),
    Step::Unsubscribe(1, "news"),
    Step::Channels,
    Step::Leave(2),
    Step::Channels,
    Step::Ask(2, "news"),
];

const LISTENERS_TOLD: &str = "
listens false, names 0, waits false, heard false, room false
ok
Already
ok
ok
ok
Zebra alarm news 
listens true, names 2, waits false, heard true, room true
listens false, names 2, waits false, heard true, room true
NotSubscribed
NotSubscribed
ok
NotSubscribed
Zebra alarm news 
gone
Zebra 
listens false, names 0, waits false, heard false, room false
";

/// Who is sent a message.
const MESSAGES: &[Step] = &[
    Step::Send("news", "lost"),
    Step::Subscribe(1, "news"),
    Step::Subscribe(2, "news"),
    Step::Subscribe(3, "alarm"),
    Step::Send("news", "one"),
    Step::Send("alarm", "two"),
    Step::Send("new", "lost"),
    Step::Unsubscribe(1, "news"),
    Step::Send("news", "three"),
    Step::Messages(1),
    Step::Read(1),
    Step::Read(1),
    Step::Messages(2),
    Step::Messages(2),
    Step::Leave(2),
    Step::Messages(2),
    Step::Send("news", "lost"),
    Step::Read(3),
    Step::Ask(3, "alarm"),
    Step::Read(4),
];

const MESSAGES_TOLD: &str = "Nobody
ok
ok
ok
ok
ok
Nobody
ok
ok
news=one 
news=one 

news=one news=three 
news=one news=three 
gone

Nobody
alarm=two 
listens true, names 1, waits false, heard true, room true

";

const SIXTEEN: &[&str] = &[
    "a", "b", "c", "d", "e", "f", "g", "h", "i", "j", "k", "l", "m", "n", "o", "p",
];

/// A client may have sixteen channels, and no more.
const SEVENTEEN: &[Step] = &[
    Step::Quietly(Quiet::SubscribeToAll(1, SIXTEEN)),
    Step::Subscribe(1, "q"),
    Step::Subscribe(1, "p"),
    Step::Subscribe(2, "q"),
    Step::Ask(1, "q"),
    Step::Unsubscribe(1, "a"),
    Step::Subscribe(1, "q"),
    Step::Subscribe(1, "a"),
    Step::Channels,
];

const SEVENTEEN_TOLD: &str = "TooMany
Already
ok
listens false, names 16, waits false, heard true, room true
ok
ok
TooMany
b c d e f g h i j k l m n o p q 
";

/// Sixty-four messages may wait for a client, and no more.
const SIXTY_FOUR: &[Step] = &[
    Step::Quietly(Quiet::SubscribeToAll(1, &["news"])),
    Step::Quietly(Quiet::SendOften("news", 63)),
    Step::Send("news", "last"),
    Step::Ask(1, "news"),
    Step::Send("news", "lost"),
    Step::Send("other", "lost"),
    Step::Last(1),
    Step::Last(2),
];

const SIXTY_FOUR_TOLD: &str = "ok
listens true, names 1, waits true, heard true, room false
NoRoom
Nobody
64: last
none
";

/// A listener for whom so many wait misses what another is sent.
const FULL_LISTENER: &[Step] = &[
    Step::Quietly(Quiet::SubscribeToAll(1, &["news"])),
    Step::Quietly(Quiet::SendOften("news", 63)),
    Step::Send("news", "last"),
    Step::Subscribe(2, "news"),
    Step::Send("news", "for two"),
    Step::Messages(2),
    Step::Last(1),
    Step::Last(2),
];

const FULL_LISTENER_TOLD: &str = "ok
ok
ok
news=for two 
64: last
1: for two
";

/// An image of channels stays.
const IMAGE: &[Step] = &[
    Step::Subscribe(1, "news"),
    Step::Subscribe(1, "Zebra"),
    Step::Subscribe(2, "news"),
    Step::Send("news", "one"),
    Step::Quietly(Quiet::Keep),
    Step::Subscribe(3, "alarm"),
    Step::Unsubscribe(1, "Zebra"),
    Step::Send("news", "two"),
    Step::Read(1),
    Step::Leave(2),
    Step::Quietly(Quiet::Back),
    Step::Channels,
    Step::Ask(1, "Zebra"),
    Step::Messages(1),
    Step::Ask(3, "alarm"),
    Step::Send("news", "three"),
    Step::Read(2),
];

const IMAGE_TOLD: &str = "ok
ok
ok
ok
ok
ok
ok
news=one news=two 
gone
Zebra news 
listens true, names 2, waits true, heard true, room true
news=one 
listens false, names 0, waits false, heard false, room false
ok
news=one news=three 
";

/// So does one of a client with as many channels and messages as it may have, when its source was left.
const FULL_IMAGE: &[Step] = &[
    Step::Quietly(Quiet::SubscribeToAll(1, SIXTEEN)),
    Step::Quietly(Quiet::SendOften("p", 64)),
    Step::Quietly(Quiet::Keep),
    Step::Quietly(Quiet::Leave(1)),
    Step::Quietly(Quiet::Back),
    Step::Subscribe(1, "q"),
    Step::Send("a", "lost"),
    Step::Channels,
    Step::Last(1),
    Step::Last(2),
];

const FULL_IMAGE_TOLD: &str = "TooMany
NoRoom
a b c d e f g h i j k l m n o p 
64: again
none
";

/// Calls, and what they tell.
const ROWS: &[(&[Step], &str)] = &[
    (LISTENERS, LISTENERS_TOLD),
    (MESSAGES, MESSAGES_TOLD),
    (SEVENTEEN, SEVENTEEN_TOLD),
    (SIXTY_FOUR, SIXTY_FOUR_TOLD),
    (FULL_LISTENER, FULL_LISTENER_TOLD),
    (IMAGE, IMAGE_TOLD),
    (FULL_IMAGE, FULL_IMAGE_TOLD),
];

const NAMES: &[&str] = &[
    "a",
    "",
    "z",
    "A",
    "Z",
    "0",
    "9",
    "_",
    "-",
    ".",
    ":",
    "a.b-c_d:9",
    " ",
    "a b",
    "a/b",
    "@",
    "[",
    "`",
    "{",
    "/",
    ";",
    "\u{e9}",
    "a\n",
    ",",
    "^",
];

/// Those of these texts that are names of channels, with a bar after each text.
fn proper(alloc: Global) -> Result<String, AllocError> {
    let mut recorder = Recorder::new(alloc);
    for text in NAMES.iter() {
        if is_channel_name(text) {
            recorder.add(text);
        }
        recorder.add("|");
    }
    recorder.into_text()
}

#[test]
fn channels_and_their_names(rt: HostRuntime) -> Result<(), Fail> {
    for (steps, tells) in ROWS.iter() {
        wants(answers(rt.alloc(), steps), tells)?;
    }
    wants(
        proper(rt.alloc()),
        "a||z|A|Z|0|9|_|-|.|:|a.b-c_d:9||||||||||||||",
    )
}
