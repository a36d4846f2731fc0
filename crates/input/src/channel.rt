// Channels by name.
ghost use Rattle.std.specs.Prelude.{◌≡◌};
ghost use Rattle.input.specs.Channels.{channel_number};

// The channels of the tokens that a scanner gives. A grammar over other tokens may use others.
#[derive(Clone, Copy, Debug, PartialEq, Eq, Drop)]
pub enum Channel {
    Default = 0, // what a parser sees
    Hidden = 1, // blanks and comments
}

impl From<Channel> for u8 {
    ghost from_gives = { λ c r. r ≡ channel_number c };

    fn from(channel: Channel) -> u8 {
        channel as u8
    }
}
