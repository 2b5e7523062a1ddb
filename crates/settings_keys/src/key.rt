//! The keys of settings.
ghost use Rattle.std.specs.Prelude.{◌≡◌};
ghost use Rattle.settings_keys.specs.Keys.{key_text};

/// A key of the tables of settings, by its name there.
#[derive(Clone, Copy, Debug, PartialEq, Eq)]
pub enum Key {
    /// `carrier`: transport packets or baseband frames.
    Carrier,
    /// `recording`: what stands before each transport packet.
    Recording,
    /// `packet_rate`: transport packets in a second.
    PacketRate,
    /// `cycle`: slots from one INT to the next.
    Cycle,
    /// `frame_bytes`: the bytes of a baseband frame.
    FrameBytes,
    /// `int`: the table of the INT.
    Int,
    /// `service`: the tables of the services.
    Service,
    /// `pid` of the INT or a service.
    Pid,
    /// `platform_id` of the INT.
    PlatformId,
    /// `network_id` of the INT.
    NetworkId,
    /// `original_network_id` of the INT.
    OriginalNetworkId,
    /// `transport_stream_id` of the INT.
    TransportStreamId,
    /// `name` of a service.
    Name,
    /// `kind` of a service.
    Kind,
    /// `isi` of a service in baseband frames.
    Isi,
    /// `address`: whether units carry an address.
    Address,
    /// `packing`: whether a unit may begin after another in one packet.
    Packing,
    /// `mode` of MPE-FEC frames: indexed or sliced.
    Mode,
    /// `rows` of an MPE-FEC frame.
    Rows,
    /// `parity`: the parity columns that are sent.
    Parity,
    /// `window_start`: the first slot of a burst.
    WindowStart,
    /// `window_length`: the slots of a burst.
    WindowLength,
    /// `rules` of a service.
    Rules,
    /// `urgent`: the rules by which datagrams of a service are urgent.
    Urgent,
    /// `filter` of a service.
    Filter,
    /// `unicast`: the address for datagrams to one receiver.
    Unicast,
    /// `service_id` of a service.
    ServiceId,
    /// `component_tag` of a service.
    ComponentTag,
    /// `change`: the tables of what changes the plan.
    Change,
    /// `at` of a change: the capture's record from which on it holds.
    At,
}

impl Key {
    /// The key as it stands in settings.
    pub fn name(self) -> &'static str
        ensures read { result.now ≡ key_text self }
    {
        match self {
            Key::Carrier => "carrier",
            Key::Recording => "recording",
            Key::PacketRate => "packet_rate",
            Key::Cycle => "cycle",
            Key::FrameBytes => "frame_bytes",
            Key::Int => "int",
            Key::Service => "service",
            Key::Pid => "pid",
            Key::PlatformId => "platform_id",
            Key::NetworkId => "network_id",
            Key::OriginalNetworkId => "original_network_id",
            Key::TransportStreamId => "transport_stream_id",
            Key::Name => "name",
            Key::Kind => "kind",
            Key::Isi => "isi",
            Key::Address => "address",
            Key::Packing => "packing",
            Key::Mode => "mode",
            Key::Rows => "rows",
            Key::Parity => "parity",
            Key::WindowStart => "window_start",
            Key::WindowLength => "window_length",
            Key::Rules => "rules",
            Key::Urgent => "urgent",
            Key::Filter => "filter",
            Key::Unicast => "unicast",
            Key::ServiceId => "service_id",
            Key::ComponentTag => "component_tag",
            Key::Change => "change",
            Key::At => "at",
        }
    }
}
