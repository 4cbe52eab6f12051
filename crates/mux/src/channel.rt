// 52: what the caller says of a segment that is to be written.
ghost use Rattle.std.specs.Prelude.{◌≡◌};
ghost use Rattle.descriptor.specs.Descriptor.{wrong};
ghost use Rattle.mux_rules.specs.Sending.{map_pid_wrong, av1_pid_wrong, program_wrong, counters_wrong, channel_wrong};

use mux_rules::Channel;

// Returns true if the video descriptor is wrong.
fn video_wrong(video: &[u8]) -> bool
    ensures { result ≡ wrong video.now }
{
    let read = descriptor::read(video);
    match read {
        Ok(_) => false,
        Err(_) => true,
    }
}

// Returns true if the PID of the map is out of its bounds.
#[tactic(auto, unfolding(lists::specs::Lists::any))]
fn map_pid_wrong(channel: Channel) -> bool
    ensures { result ≡ map_pid_wrong channel }
{
    channel.map_pid < 16 || 8190 < channel.map_pid
}

// Returns true if the AV1 PID is out of its bounds, or that of the map.
#[tactic(auto, unfolding(lists::specs::Lists::any))]
fn av1_pid_wrong(channel: Channel) -> bool
    ensures { result ≡ av1_pid_wrong channel }
{
    channel.av1_pid == 0 || 8190 < channel.av1_pid || channel.av1_pid == channel.map_pid
}

// Returns true if the program number is out of its bounds.
#[tactic(auto, unfolding(lists::specs::Lists::any))]
fn program_wrong(channel: Channel) -> bool
    ensures { result ≡ program_wrong channel }
{
    channel.program == 0 || 65535 < channel.program
}

// Returns true if a counter has more than four bits.
#[tactic(auto, unfolding(lists::specs::Lists::any))]
fn counters_wrong(channel: Channel) -> bool
    ensures { result ≡ counters_wrong channel }
{
    15 < channel.pat_counter || 15 < channel.map_counter || 15 < channel.av1_counter
}

// Returns true if 52 is given.
#[tactic(auto, unfolding(lists::specs::Lists::any, mux_rules::specs::Sending::channel_wrong))]
pub(crate) fn channel_wrong(channel: Channel, video: &[u8]) -> bool
    ensures { result ≡ channel_wrong channel video.now }
{
    video_wrong(video)
        || map_pid_wrong(channel)
        || av1_pid_wrong(channel)
        || program_wrong(channel)
        || counters_wrong(channel)
        || 2576980377600 <= channel.pcr.0
}
