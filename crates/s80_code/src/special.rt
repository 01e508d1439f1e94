// The messages that have bytes of their own.
ghost use Rattle.std.specs.Prelude.{◌≡◌, ◌<◌, IfSome, get_or, length, map as list_map};
ghost use Rattle.std.specs.List.{position_from};
ghost use Rattle.std.specs.Str.{bytes_eq};
ghost use Rattle.s80_code.specs.Special.{message_of, special_arguments, special_messages, special_number, special_selectors};

/// A message that has a byte of its own.
#[derive(Clone, Copy, Debug)]
pub struct SpecialMessage {
    pub selector: &'static str,
    pub arguments: u8,
}

/// The number of `blockCopy:`, whose byte begins a real block.
pub const BLOCK_COPY: u8 = 24;

macro_rules! message {
    ($selector:literal, $arguments:literal) => {
        SpecialMessage {
            selector: $selector,
            arguments: $arguments,
        }
    };
}

const MESSAGES: [SpecialMessage; 32] = [
    message!("+", 1),
    message!("-", 1),
    message!("<", 1),
    message!(">", 1),
    message!("<=", 1),
    message!(">=", 1),
    message!("=", 1),
    message!("~=", 1),
    message!("*", 1),
    message!("/", 1),
    message!("\\\\", 1),
    message!("@", 1),
    message!("bitShift:", 1),
    message!("//", 1),
    message!("bitAnd:", 1),
    message!("bitOr:", 1),
    message!("at:", 1),
    message!("at:put:", 2),
    message!("size", 0),
    message!("next", 0),
    message!("nextPut:", 1),
    message!("atEnd", 0),
    message!("==", 1),
    message!("class", 0),
    message!("blockCopy:", 1),
    message!("value", 0),
    message!("value:", 1),
    message!("do:", 1),
    message!("new", 0),
    message!("new:", 1),
    message!("x", 0),
    message!("y", 0),
];

/// The messages of the bytes 176 to 207, in this order: a message's number is its place.
pub fn special_messages() -> &'static [SpecialMessage]
    ensures rows { list_map message_of result.now ≡ special_messages }
    ensures selectors { list_map (λ m. m.selector.now) result.now ≡ special_selectors }
    ensures count { length result.now ≡ 32 }
{
    &MESSAGES
}

/// How many arguments the message with a number takes.
pub fn special_arguments(number: u8) -> u8
    ensures { result ≡ get_or special_arguments number 0 }
{
    match special_messages().get(usize::from(number)) {
        Some(message) => message.arguments,
        None => 0,
    }
}

/// The number by which a selector is sent, where it has a byte of its own. `blockCopy:` has none: its byte begins a block.
pub fn special_number(selector: &[u8]) -> Option<u8>
    ensures is { result ≡ special_number selector.now }
    ensures low { IfSome result (λ n. n < 32) }
{
    let number = place_of(special_messages(), selector)? as u8;
    if number == BLOCK_COPY {
        None
    } else {
        Some(number)
    }
}

/// The place of the first of some messages with a selector.
fn place_of(messages: &[SpecialMessage], selector: &[u8]) -> Option<usize>
    ensures is { result ≡ position_from (λ m. bytes_eq m.selector.now selector.now) 0 messages.now }
    ensures within { IfSome result (λ n. n < length messages.now) }
{
    messages
        .iter()
        .position(|message| message.selector.as_bytes() == selector)
}
