//! The route of a channel.
ghost use Rattle.std.specs.Prelude.{◌≡◌, ◌<◌, ◌≤◌, ◌*◌};
ghost use Rattle.opus_head.specs.Channel.{byte_route, route_of};

use crate::{Head, Route, Table};

/// What is played on the output channel with this index.
pub fn route(head: &Head, channel: u8) -> Route
    requires { channel < head.now.channels }
    ensures { result ≡ route_of head.now channel }
{
    match &head.table {
        Table::None => byte_route(head.channels - 1, channel),
        Table::Map { coupled, map, .. } => {
            byte_route(*coupled, map.as_slice()[usize::from(channel)])
        }
        Table::Matrix { .. } => Route::Matrix,
    }
}

// What a mapping byte says, where so many streams are coupled.
fn byte_route(coupled: u8, byte: u8) -> Route
    requires { 2 * coupled ≤ 255 }
    ensures { result ≡ byte_route coupled byte }
{
    match byte {
        255 => Route::Silence,
        _ if byte >= 2 * coupled => Route::Mono {
            stream: byte - coupled,
        },
        _ if byte % 2 == 0 => Route::Left { stream: byte / 2 },
        _ => Route::Right { stream: byte / 2 },
    }
}
