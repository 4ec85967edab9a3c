//! The commands by which clients send one another messages (MPD protocol reference, Client to client).
ghost use Rattle.std.specs.Prelude.{◌≡◌, ◌++◌, IfOk, OnOk, map};
ghost use Rattle.std.specs.List.{flat_map};
ghost use Rattle.status_commands.specs.Messages.{channels as channels_lem, lines_of_channels, lines_of_messages, message_lines, read_messages as read_messages_lem, result_of, send_message as send_message_lem, subscribe as subscribe_lem, unsubscribe as unsubscribe_lem};
ghost use Rattle.transitions.specs.Transitions.{IsDecidedBy};
ghost use Rattle.player_state.specs.Fits.{Fits};

use idle_notes::{MAX_SUBSCRIPTIONS, Message, is_channel_name};
use mpd_command::MessageCommand;
use mpd_text::{Answer, ErrorNumber, Text};
use player_state::{CommandEffect, Part};
use std::alloc::{AllocError, Global};
use transitions::{Asked, Transition};

/// The rows: what each command asks of the player.
#[rattlefmt::skip]
#[tactic(auto, unfolding(crate::specs::Messages::result_of))]
pub fn run(alloc: Global, asked: Asked, part: &Part, command: &MessageCommand) -> Result<Transition, AllocError>
    ensures transition { IsDecidedBy result (result_of asked part.now command.now) }
    ensures fits { IfOk result (λ transition. Fits part.now transition.effect) }
{
    match command {
        MessageCommand::Channels => channels(alloc, asked, part),
        MessageCommand::ReadMessages => read_messages(alloc, asked, part),
        MessageCommand::SendMessage(channel, text) => send_message(alloc, asked, part, channel, text),
        MessageCommand::Subscribe(channel) => subscribe(alloc, asked, part, channel),
        MessageCommand::Unsubscribe(channel) => unsubscribe(alloc, asked, part, channel),
    }
}

fn subscribe(
    alloc: Global,
    asked: Asked,
    part: &Part,
    channel: &Text,
) -> Result<Transition, AllocError>
    ensures transition { IsDecidedBy result (subscribe_lem asked part.now channel.now) }
    ensures fits { IfOk result (λ transition. Fits part.now transition.effect) }
{
    if !is_channel_name(channel.as_str()) {
        return Transition::bad_name(alloc, asked, channel.as_str());
    }
    if part.channels.listens(asked.client, channel.as_str()) {
        return Transition::refuses(alloc, asked, ErrorNumber::Exist, "already subscribed");
    }
    if part.channels.count_of(asked.client) >= MAX_SUBSCRIPTIONS {
        return Transition::refuses(alloc, asked, ErrorNumber::System, "too many subscriptions");
    }
    let name = Text::new(alloc, channel.as_str())?;
    Transition::does(alloc, asked, CommandEffect::Subscribes(asked.client, name))
}

fn unsubscribe(
    alloc: Global,
    asked: Asked,
    part: &Part,
    channel: &Text,
) -> Result<Transition, AllocError>
    ensures transition { IsDecidedBy result (unsubscribe_lem asked part.now channel.now) }
    ensures fits { IfOk result (λ transition. Fits part.now transition.effect) }
{
    if !is_channel_name(channel.as_str()) {
        return Transition::bad_name(alloc, asked, channel.as_str());
    }
    if !part.channels.listens(asked.client, channel.as_str()) {
        return Transition::refuses(alloc, asked, ErrorNumber::NoExist, "not subscribed");
    }
    let name = Text::new(alloc, channel.as_str())?;
    Transition::does(
        alloc,
        asked,
        CommandEffect::Unsubscribes(asked.client, name),
    )
}

fn channels(alloc: Global, asked: Asked, part: &Part) -> Result<Transition, AllocError>
    ensures { IsDecidedBy result (channels_lem asked part.now) }
{
    let names = part.channels.channels(alloc)?;
    let mut lines = Answer::new(alloc);
    push_channels(&mut lines, &names)?;
    Transition::shows(asked, lines)
}

#[tactic(auto, unfolding(crate::specs::Messages::lines_of_channels))]
fn push_channels(lines: &mut Answer, names: &[&str]) -> Result<(), AllocError>
    ensures { OnOk result (lines.new ≡ lines.old ++ lines_of_channels (map (λ name. name.now) names.now)) }
{
    for name in names {
        lines.pair("channel", *name)?;
    }
    Ok(())
}

fn send_message(
    alloc: Global,
    asked: Asked,
    part: &Part,
    channel: &Text,
    text: &Text,
) -> Result<Transition, AllocError>
    ensures transition { IsDecidedBy result (send_message_lem asked part.now channel.now text.now) }
    ensures fits { IfOk result (λ transition. Fits part.now transition.effect) }
{
    if !is_channel_name(channel.as_str()) {
        return Transition::bad_name(alloc, asked, channel.as_str());
    }
    if !part.channels.hears(channel.as_str()) {
        return Transition::refuses(alloc, asked, ErrorNumber::NoExist, "nobody is subscribed");
    }
    if !part.channels.has_room(channel.as_str()) {
        return Transition::refuses(alloc, asked, ErrorNumber::NoExist, "no subscriber has room");
    }
    let name = Text::new(alloc, channel.as_str())?;
    let text = Text::new(alloc, text.as_str())?;
    Transition::does(alloc, asked, CommandEffect::Sends(name, text))
}

fn read_messages(alloc: Global, asked: Asked, part: &Part) -> Result<Transition, AllocError>
    ensures transition { IsDecidedBy result (read_messages_lem asked part.now) }
    ensures fits { IfOk result (λ transition. Fits part.now transition.effect) }
{
    let mut lines = Answer::new(alloc);
    push_messages(&mut lines, part.channels.messages(asked.client))?;
    Transition::does_and_shows(asked, CommandEffect::ReadsMessages(asked.client), lines)
}

#[tactic(auto, unfolding(crate::specs::Messages::lines_of_messages))]
fn push_messages(lines: &mut Answer, messages: &[Message]) -> Result<(), AllocError>
    ensures { OnOk result (lines.new ≡ lines.old ++ lines_of_messages messages.now) }
{
    for message in messages {
        push_message(lines, message)?;
    }
    Ok(())
}

fn push_message(lines: &mut Answer, message: &Message) -> Result<(), AllocError>
    ensures { OnOk result (lines.new ≡ lines.old ++ message_lines message.now) }
{
    lines.pair("channel", message.channel.as_str())?;
    lines.pair("message", message.text.as_str())
}
