//! The channels by which clients send one another messages (MPD protocol reference, Client to client).
ghost use Rattle.std.specs.Prelude.{◌≡◌, ℕ, ◌+◌, ◌<◌, ◌≤◌, ◌==◌, [], ◌++◌, ◌∷◌, List, None, Some, IfOk, IfErr, OnOk, OnErr, All, length, map, filter, not, option_copied, vec_len, vec_capacity};
ghost use Rattle.std.specs.List.{flat_map, list_all, list_any, position_or_len};
ghost use Rattle.std.specs.List.Sorted.{IsStrictlySortedBy};
ghost use Rattle.std.specs.Option.{option_map};
ghost use Rattle.std.specs.Str.{bytes_eq};
ghost use Rattle.mpd_text.specs.Texts.{by_bytes, ascending};
ghost use Rattle.idle_notes.specs.Channels.{MemberData, data_of, is_name_byte as is_name_byte_lem, is_channel_name as is_channel_name_lem, has_name as has_name_lem, member_of, names_of, messages_of, clients_with_messages, is_listening, has_messages_beyond, listens, hears, receives as receives_lem, has_room, channel_names, with_name, without_name, without_messages, subscribed, unsubscribed, given, sent, emptied, left, subscribe_refusal, unsubscribe_refusal, send_refusal, IsReady, changed, AnyFaultIs, KeepsClientsApart, IsNamedWhereHeard, HearsWhereOneListens, Subscribes, receiver_count, copies_taken, ClientsDiffer};

use mpd_text::{SharedText, Text, sort_once};
use std::alloc::{AllocError, Global};
use std::marker::Model;
use std::mem;

/// The most channels that a client may listen to.
pub const MAX_SUBSCRIPTIONS: usize = 16;

/// The most messages that may wait for a client.
pub const MAX_MESSAGES: usize = 64;

/// A message, and the channel that it was sent to.
#[derive(Drop)]
pub struct Message {
    pub channel: SharedText,
    pub text: SharedText,
}

impl Message {
    /// A second owner of both texts.
    fn shared(&self) -> Result<Message, AllocError>
        ensures { IfOk result (λ message. message ≡ self.now) }
    {
        Ok(Message {
            channel: self.channel.clone()?,
            text: self.text.clone()?,
        })
    }
}

/// A client that came to listen.
#[derive(Drop)]
struct Member {
    client: u32,
    names: Vec<Text>,
    messages: Vec<Message>,
}

/// Why a channel cannot be used.
#[derive(Clone, Copy, Debug, PartialEq, Eq)]
pub enum ChannelFault {
    /// The client listens to the channel already.
    Already,
    /// The client listens to as many channels as it may.
    TooMany,
    /// The client does not listen to the channel.
    NotSubscribed,
    /// Nobody listens to the channel.
    Nobody,
    /// For each client that listens to the channel as many messages wait as may.
    NoRoom,
    /// A growth was refused.
    NoMemory,
}

impl From<AllocError> for ChannelFault {
    ghost use Rattle.idle_notes.specs.declared.channels.ChannelFault.{ChannelFault};
    ghost use Rattle.std.specs.Prelude.{◌≡◌};

    ghost from_gives = { λ _ fault. fault ≡ ChannelFault.NoMemory };

    fn from(_: AllocError) -> Self {
        ChannelFault::NoMemory
    }
}

/// Which client listens to which channel, and the messages that wait for each. A clause sees the clients in
/// the order in which they came to listen.
#[derive(Drop)]
pub struct Channels {
    members: Vec<Member>,
}

impl Model for Channels {
    ghost use Rattle.std.specs.Prelude.{List, map};
    ghost use Rattle.idle_notes.specs.Channels.{MemberData, data_of};

    ghost Value = { List MemberData };

    ghost view = { λ c. map data_of c.members.items };
}

impl Channels {
    /// Nobody listens, and no message waits. Takes no memory.
    pub fn new(alloc: Global) -> Channels
        ensures { result ≡ [] }
    {
        Channels {
            members: Vec::new(alloc),
        }
    }

    /// Who listens to what, and what waits, a second time: what becomes of either leaves the other as it is.
    /// No message is copied.
    pub fn image(&self) -> Result<Channels, AllocError>
        ensures { IfOk result (λ image. image ≡ self.now) }
    {
        let members = copies(*self.members.allocator(), &self.members)?;
        Ok(Channels { members })
    }

    /// A client listens to a channel from now on (MPD protocol reference, `subscribe`). Where it is refused,
    /// nothing changes; want of memory is the last cause. That a client listens to at most
    /// [`MAX_SUBSCRIPTIONS`] channels is this profile's.
    pub fn subscribe(&mut self, client: u32, name: &str) -> Result<(), ChannelFault>
        ensures ok { OnOk result (self.new ≡ subscribed client name.now self.old) }
        ensures within { OnOk result (subscribe_refusal client name.now self.old ≡ None) }
        ensures refused { AnyFaultIs (subscribe_refusal client name.now self.old) result }
        ensures err { OnErr result (self.new ≡ self.old) }
    {
        if self.listens(client, name) {
            return Err(ChannelFault::Already);
        }
        if self.count_of(client) >= MAX_SUBSCRIPTIONS {
            return Err(ChannelFault::TooMany);
        }
        add_name(&mut self.members, client, name)?;
        Ok(())
    }

    /// A client listens to a channel no more (MPD protocol reference, `unsubscribe`); the messages that wait
    /// for it stay, and that is this profile's. Where it is refused, nothing changes. Takes no memory.
    pub fn unsubscribe(&mut self, client: u32, name: &str) -> Result<(), ChannelFault>
        ensures ok { OnOk result (self.new ≡ unsubscribed client name.now self.old) }
        ensures within { OnOk result (unsubscribe_refusal client name.now self.old ≡ None) }
        ensures refused { IfErr result (λ fault. unsubscribe_refusal client name.now self.old ≡ Some fault) }
        ensures err { OnErr result (self.new ≡ self.old) }
    {
        if !self.listens(client, name) {
            return Err(ChannelFault::NotSubscribed);
        }
        remove_name(&mut self.members, client, name);
        Ok(())
    }

    /// A message to a channel joins, as the last, the messages of each client that listens to it and has room
    /// (MPD protocol reference, `sendmessage`). Where it is refused, nothing changes; want of memory is the
    /// last cause. That at most [`MAX_MESSAGES`] wait for a client is this profile's.
    #[tactic(auto, unfolding(crate::specs::Channels::sent))]
    pub fn send(&mut self, name: &str, text: &str) -> Result<(), ChannelFault>
        ensures ok { OnOk result (self.new ≡ sent name.now text.now self.old) }
        ensures within { OnOk result (send_refusal name.now self.old ≡ None) }
        ensures refused { AnyFaultIs (send_refusal name.now self.old) result }
        ensures err { OnErr result (self.new ≡ self.old) }
    {
        if !self.hears(name) {
            return Err(ChannelFault::Nobody);
        }
        if !self.has_room(name) {
            return Err(ChannelFault::NoRoom);
        }
        let alloc = *self.members.allocator();
        let message = new_message(alloc, name, text)?;
        send_all(&mut self.members, alloc, &message)?;
        Ok(())
    }

    /// The messages that wait for a client, the oldest first.
    pub fn messages(&self, client: u32) -> &[Message]
        ensures { result.now ≡ messages_of client self.now }
    {
        match find_member(&self.members, client) {
            Some(member) => member.messages.as_slice(),
            None => &[],
        }
    }

    /// Whether a message waits for a client.
    pub fn has_messages(&self, client: u32) -> bool
        ensures { result ≡ not (length (messages_of client self.now) == 0) }
    {
        !self.messages(client).is_empty()
    }

    /// Whether a client listens to a channel.
    pub fn listens(&self, client: u32, name: &str) -> bool
        ensures { result ≡ listens client name.now self.now }
    {
        match find_member(&self.members, client) {
            Some(member) => has_name(&member.names, name),
            None => false,
        }
    }

    /// Whether a client listens to any channel.
    pub fn is_listening(&self, client: u32) -> bool
        ensures { result ≡ is_listening client self.now }
    {
        for member in &self.members {
            if member.client == client && !member.names.is_empty() {
                return true;
            }
        }
        false
    }

    /// The clients for which messages wait.
    pub fn clients_with_messages(&self, alloc: Global) -> Result<Vec<u32>, AllocError>
        ensures { IfOk result (λ clients. clients.items ≡ clients_with_messages self.now) }
    {
        let mut clients = Vec::new(alloc);
        for member in &self.members {
            if self.has_messages(member.client) {
                clients.push(member.client)?;
            }
        }
        Ok(clients)
    }

    /// Whether messages wait for a client that is none of these.
    pub fn has_messages_beyond(&self, clients: &[u32]) -> bool
        ensures { result ≡ has_messages_beyond clients.now self.now }
    {
        for member in &self.members {
            if self.has_messages(member.client) && !is_among(clients, member.client) {
                return true;
            }
        }
        false
    }

    /// How many channels a client listens to.
    pub fn count_of(&self, client: u32) -> usize
        ensures { result ≡ length (names_of client self.now) }
    {
        match find_member(&self.members, client) {
            Some(member) => member.names.len(),
            None => 0,
        }
    }

    /// Whether somebody listens to a channel.
    pub fn hears(&self, name: &str) -> bool
        ensures { result ≡ hears name.now self.now }
    {
        for member in &self.members {
            if has_name(&member.names, name) {
                return true;
            }
        }
        false
    }

    /// Whether somebody who listens to a channel has room for a message.
    pub fn has_room(&self, name: &str) -> bool
        ensures { result ≡ has_room name.now self.now }
    {
        for member in &self.members {
            if receives(member, name) {
                return true;
            }
        }
        false
    }

    /// Takes the messages that wait for a client, the oldest first (MPD protocol reference, `readmessages`);
    /// they wait no more. Takes no memory.
    pub fn read(&mut self, client: u32) -> Vec<Message>
        ensures messages { result.items ≡ messages_of client self.old }
        ensures after { self.new ≡ emptied client self.old }
    {
        let alloc = *self.members.allocator();
        take_messages(&mut self.members, alloc, client)
    }

    /// A client goes, with its channels and its messages. Takes no memory.
    pub fn leave(&mut self, client: u32)
        ensures { self.new ≡ left client self.old }
    {
        self.members.retain(|member| member.client != client);
    }

    /// The names of the channels that somebody listens to, in byte order and each once (MPD protocol
    /// reference, `channels`; the order is this profile's). No name is copied.
    pub fn channels(&self, alloc: Global) -> Result<Vec<&str>, AllocError>
        ensures { IfOk result (λ names. map (λ name. name.now) names.items ≡ channel_names self.now) }
    {
        let mut names = Vec::new(alloc);
        for member in &self.members {
            push_names(&mut names, &member.names)?;
        }
        sort_once(&mut names);
        Ok(names)
    }
}

/// Whether a text is the name of a channel: one or more ASCII letters, digits, `_`, `-`, `.` and `:` (MPD
/// protocol reference, Client to client).
pub fn is_channel_name(name: &str) -> bool
    ensures { result ≡ is_channel_name_lem name.now }
{
    !name.is_empty() && are_name_bytes(name.as_bytes())
}

fn are_name_bytes(bytes: &[u8]) -> bool
    ensures { result ≡ list_all is_name_byte_lem bytes.now }
{
    bytes.iter().all(|byte| is_name_byte(*byte))
}

fn is_name_byte(byte: u8) -> bool
    ensures { result ≡ is_name_byte_lem byte }
{
    byte.is_ascii_lowercase()
        || byte.is_ascii_uppercase()
        || byte.is_ascii_digit()
        || byte == b'_'
        || byte == b'-'
        || byte == b'.'
        || byte == b':'
}

/// The law that `channel_names` has the names that somebody listens to and no others, each before all that
/// follow it in byte order.
pub fn channel_names_are_each_once()
    ensures order { (members : List MemberData) → IsStrictlySortedBy by_bytes (channel_names members) }
    ensures names { (members : List MemberData) (name : List ℕ) → IsNamedWhereHeard name members }
{}

/// The law that no change makes a client be there twice. At the start nobody is there.
pub fn clients_stay_apart()
    ensures subscribed { (client : ℕ) (name : List ℕ) → KeepsClientsApart (subscribed client name) }
    ensures unsubscribed { (client : ℕ) (name : List ℕ) → KeepsClientsApart (unsubscribed client name) }
    ensures sent { (name text : List ℕ) → KeepsClientsApart (sent name text) }
    ensures emptied { (client : ℕ) → KeepsClientsApart (emptied client) }
    ensures left { (client : ℕ) → KeepsClientsApart (left client) }
{}

/// The law that somebody listens to a channel exactly where a client does, as long as no client is there
/// twice.
pub fn hears_where_one_listens()
    ensures { (name : List ℕ) (members : List MemberData) → ClientsDiffer members → HearsWhereOneListens name members }
{}

fn is_among(clients: &[u32], client: u32) -> bool
    ensures { result ≡ list_any (λ known. known == client) clients.now }
{
    clients.iter().any(|known| *known == client)
}

fn has_name(names: &[Text], name: &str) -> bool
    ensures { result ≡ has_name_lem name.now names.now }
{
    names.iter().any(|own| name == own.as_str())
}

/// Whether a message to a channel joins the messages of a client.
fn receives(member: &Member, name: &str) -> bool
    ensures { result ≡ receives_lem name.now (data_of member.now) }
{
    has_name(&member.names, name) && member.messages.len() < MAX_MESSAGES
}

fn find_member(members: &[Member], client: u32) -> Option<&Member>
    ensures { option_map data_of (option_copied result) ≡ member_of client (map data_of members.now) }
{
    for member in members {
        if member.client == client {
            return Some(member);
        }
    }
    None
}

/// The index of a client; the number of clients where it is not there.
fn index_of(members: &[Member], client: u32) -> usize
    ensures index { result ≡ position_or_len (λ member. member.client == client) members.now }
    ensures within { result ≤ length members.now }
{
    let mut index = 0;
    for member in members {
        if member.client == client {
            return index;
        }
        index += 1;
    }
    index
}

/// A client that does not listen to a channel listens to it, as its last.
#[tactic(auto, unfolding(crate::specs::Channels::subscribed))]
fn add_name(members: &mut Vec<Member>, client: u32, name: &str) -> Result<(), AllocError>
    ensures ok { OnOk result (Subscribes members.old.items members.new.items client name.now) }
    ensures err { OnErr result (map data_of members.new.items ≡ map data_of members.old.items) }
{
    let alloc = *members.allocator();
    let name = Text::new(alloc, name)?;
    if find_member(members, client).is_some() {
        return name_one(members, client, name);
    }
    let member = new_member(alloc, client, name)?;
    members.push(member).map_err(AllocError::from)
}

fn name_one(members: &mut [Member], client: u32, name: Text) -> Result<(), AllocError>
    ensures ok { OnOk result (map data_of members.new ≡ changed client (with_name name) (map data_of members.old)) }
    ensures err { OnErr result (map data_of members.new ≡ map data_of members.old) }
{
    let index = index_of(members, client);
    if index < members.len() {
        return push_name(&mut members[index], name);
    }
    Ok(())
}

fn push_name(member: &mut Member, name: Text) -> Result<(), AllocError>
    ensures ok { OnOk result (data_of member.new ≡ with_name name (data_of member.old)) }
    ensures err { OnErr result (data_of member.new ≡ data_of member.old) }
{
    member.names.push(name).map_err(AllocError::from)
}

fn new_member(alloc: Global, client: u32, name: Text) -> Result<Member, AllocError>
    ensures { IfOk result (λ member. data_of member ≡ record { client = client; names = name ∷ []; messages = [] }) }
{
    let mut names = Vec::new(alloc);
    names.push(name).map_err(AllocError::from)?;
    Ok(Member {
        client,
        names,
        messages: Vec::new(alloc),
    })
}

fn remove_name(members: &mut [Member], client: u32, name: &str)
    ensures { map data_of members.new ≡ unsubscribed client name.now (map data_of members.old) }
{
    let index = index_of(members, client);
    if index < members.len() {
        keep_other_names(&mut members[index], name);
    }
}

fn keep_other_names(member: &mut Member, name: &str)
    ensures { data_of member.new ≡ without_name name.now (data_of member.old) }
{
    member.names.retain(|own| name != own.as_str());
}

fn take_messages(members: &mut [Member], alloc: Global, client: u32) -> Vec<Message>
    ensures messages { result.items ≡ messages_of client (map data_of members.old) }
    ensures after { map data_of members.new ≡ emptied client (map data_of members.old) }
{
    let index = index_of(members, client);
    if index < members.len() {
        return take_all(&mut members[index], alloc);
    }
    Vec::new(alloc)
}

fn take_all(member: &mut Member, alloc: Global) -> Vec<Message>
    ensures messages { result.items ≡ member.old.messages.items }
    ensures after { data_of member.new ≡ without_messages (data_of member.old) }
{
    mem::replace(&mut member.messages, Vec::new(alloc))
}

fn new_message(alloc: Global, name: &str, text: &str) -> Result<Message, AllocError>
    ensures { IfOk result (λ message. message ≡ record { channel = name.now; text = text.now }) }
{
    Ok(Message {
        channel: SharedText::new(alloc, name)?,
        text: SharedText::new(alloc, text)?,
    })
}

/// A message joins the messages of each client that receives it. All room is made before the first has it.
fn send_all(members: &mut [Member], alloc: Global, message: &Message) -> Result<(), AllocError>
    ensures ok { OnOk result (map data_of members.new ≡ map (given message.now) (map data_of members.old)) }
    ensures err { OnErr result (map data_of members.new ≡ map data_of members.old) }
{
    let name = message.channel.as_str();
    make_room(members, name)?;
    let mut copies = copies_of(alloc, message, count_receivers(members, name))?;
    deliver(members, message, &mut copies);
    Ok(())
}

fn count_receivers(members: &[Member], name: &str) -> usize
    ensures { result ≡ receiver_count name.now members.now }
{
    members
        .iter()
        .filter(|member| receives(member, name))
        .count()
}

/// So many second owners of a message.
fn copies_of(alloc: Global, message: &Message, count: usize) -> Result<Vec<Message>, AllocError>
    ensures same { IfOk result (λ copies. All (λ copy. copy ≡ message.now) copies.items) }
    ensures count { IfOk result (λ copies. vec_len copies ≡ count) }
{
    let mut copies = Vec::new(alloc);
    for _ in 0..count {
        copies.push(message.shared()?).map_err(AllocError::from)?;
    }
    Ok(copies)
}

/// Makes room for one more message of each client that receives it.
fn make_room(members: &mut [Member], name: &str) -> Result<(), AllocError>
    ensures room { OnOk result (All (IsReady name.now) members.new) }
    ensures same { map data_of members.new ≡ map data_of members.old }
{
    for member in members.iter_mut() {
        make_ready(member, name)?;
    }
    Ok(())
}

fn make_ready(member: &mut Member, name: &str) -> Result<(), AllocError>
    ensures room { OnOk result (IsReady name.now member.new) }
    ensures same { data_of member.new ≡ data_of member.old }
{
    if receives(member, name) {
        member.messages.reserve(1)?;
    }
    Ok(())
}

/// A copy of a message joins the messages of each client that receives it.
fn deliver(members: &mut [Member], message: &Message, copies: &mut Vec<Message>)
    requires room { All (IsReady message.now.channel) members.old }
    requires same { All (λ copy. copy ≡ message.now) copies.old.items }
    requires enough { receiver_count message.now.channel members.old ≤ vec_len copies.old }
    ensures { map data_of members.new ≡ map (given message.now) (map data_of members.old) }
{
    for member in members.iter_mut() {
        receive(member, message, copies);
    }
}

fn receive(member: &mut Member, message: &Message, copies: &mut Vec<Message>)
    requires room { IsReady message.now.channel member.old }
    requires same { All (λ copy. copy ≡ message.now) copies.old.items }
    requires enough { copies_taken message.now.channel member.old ≤ vec_len copies.old }
    ensures after { data_of member.new ≡ given message.now (data_of member.old) }
    ensures rest { All (λ copy. copy ≡ message.now) copies.new.items }
    ensures count { vec_len copies.new + copies_taken message.now.channel member.old ≡ vec_len copies.old }
{
    if !receives(member, message.channel.as_str()) {
        return;
    }
    if let Some(copy) = copies.pop() {
        member.messages.push_reserved(copy);
    }
}

fn push_names<'a>(all: &mut Vec<&'a str>, names: &'a [Text]) -> Result<(), AllocError>
    ensures { OnOk result (map (λ name. name.now) all.new.items ≡ map (λ name. name.now) all.old.items ++ names.now) }
{
    for name in names {
        all.push(name.as_str()).map_err(AllocError::from)?;
    }
    Ok(())
}

/// What is known of the same clients, a second time.
fn copies(alloc: Global, members: &[Member]) -> Result<Vec<Member>, AllocError>
    ensures { IfOk result (λ copies. map data_of copies.items ≡ map data_of members.now) }
{
    let mut copies = Vec::with_capacity(alloc, members.len())?;
    for member in members {
        copies.push(copy_of(alloc, member)?)?;
    }
    Ok(copies)
}

fn copy_of(alloc: Global, member: &Member) -> Result<Member, AllocError>
    ensures { IfOk result (λ copy. data_of copy ≡ data_of member.now) }
{
    Ok(Member {
        client: member.client,
        names: same_names(alloc, &member.names)?,
        messages: same_messages(alloc, &member.messages)?,
    })
}

fn same_names(alloc: Global, names: &[Text]) -> Result<Vec<Text>, AllocError>
    ensures { IfOk result (λ copies. copies.items ≡ names.now) }
{
    let mut copies = Vec::with_capacity(alloc, names.len())?;
    for name in names {
        copies.push(Text::new(alloc, name.as_str())?)?;
    }
    Ok(copies)
}

fn same_messages(alloc: Global, messages: &[Message]) -> Result<Vec<Message>, AllocError>
    ensures { IfOk result (λ copies. copies.items ≡ messages.now) }
{
    let mut copies = Vec::with_capacity(alloc, messages.len())?;
    for message in messages {
        copies.push(message.shared()?)?;
    }
    Ok(copies)
}
