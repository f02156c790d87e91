// A fresh cluster.
ghost use Rattle.std.specs.Prelude.{◌≡◌};
ghost use Rattle.rules.specs.Server.{fresh};
ghost use Rattle.rules.specs.Words.{state_of};
ghost use Rattle.cluster.specs.Any.{fresh_of};

use base::{Epoch, Place, Sizes};
use ring::Rings;
use rules::State;
use site::Cluster;

// LOOK with all else zero.
fn fresh_state(i: u8) -> State
    ensures { result ≡ state_of i fresh }
{
    State {
        me: i,
        stage: 0,
        oracle: 0,
        p: Epoch(0),
        a: Epoch(0),
        d: Place(0),
        len: Place(0),
        largest: Epoch(0),
        cand_a: Epoch(0),
        cand_len: Place(0),
        joined: [false; 7],
        acked: [false; 7],
        synced: [false; 7],
        counts: [0; 7],
    }
}

// Fresh servers, nothing waiting.
pub fn fresh_cluster(z: Sizes, depth: u8) -> Cluster
    ensures { result ≡ fresh_of z depth }
{
    let a = fresh_state(0);
    let b = fresh_state(1);
    let c = fresh_state(2);
    let d = fresh_state(3);
    let e = fresh_state(4);
    let f = fresh_state(5);
    let g = fresh_state(6);
    Cluster {
        sizes: z,
        depth,
        servers: [a, b, c, d, e, f, g],
        rings: Rings {
            heads: [0; 49],
            counts: [0; 49],
        },
    }
}
