//! The one call of a session: requests as numbers and bytes.
//!
//! The methods that it calls are out of line (`#[inline(never)]`): if they were part of it, each call
//! would take the stack of the one that takes most.

ghost use Rattle.std.specs.Prelude.{◌≡◌, ℕ, [], length};
ghost use Rattle.p2p_session.specs.Given.{moment_at};
ghost use Rattle.p2p_session.specs.Requests.{ServesCall, ServesRequest, request_of, bool_at};
ghost use Rattle.p2p_session.specs.Requests.{of_nothing, of_bytes, of_number, of_moment};
ghost use Rattle.p2p_session.specs.Requests.{of_bytes_at, of_frame};

use crate::refusal::Refusal;
use crate::scheme::Keys;
use crate::session::Session;
use p2p_discovery::codec::PublicKey;
use std::alloc::Global;

const NANOS_PER_SECOND: u64 = 1_000_000_000;

// How many numbers `init` takes: more than any other call.
const SETUP_NUMBERS: usize = 14;

// The nanoseconds of a time as the calls take them. As many as a second has stand for all that are
// more: they are refused alike.
fn nanos_of(nanos: u64) -> u32
    ensures { (seconds : ℕ) → moment_at seconds result ≡ moment_at seconds nanos }
{
    if nanos < NANOS_PER_SECOND {
        nanos as u32
    } else {
        1_000_000_000
    }
}

// The bool that is given as 0 or 1.
fn bool_of(n: u64) -> Option<bool>
    ensures { result ≡ bool_at n }
{
    match n {
        0 => Some(false),
        1 => Some(true),
        _ => None,
    }
}

impl<C: PublicKey> Session<C> {
    /// Makes the call of this number, as it is in logs, and returns what that call returns. Its
    /// arguments are in their order: numbers, bools and the parts of times in `numbers`, and bytes
    /// in `first`, `second` and `third`. Its answer is written to `out`. A bool is 0 or 1.
    /// Nanoseconds of a second or more are `BadMoment`, however many they are.
    ///
    /// # Errors
    ///
    /// [`Refusal::BadCall`] if no call has this number, if it doesn't take as many numbers, if a bool is
    /// neither 0 nor 1, or if there are bytes that the call doesn't take. This comes before all
    /// other refusals, and nothing changes then.
    ///
    /// # Cost
    ///
    /// That of the call. To find it takes a comparison for each call before it, at most.
    #[allow(clippy::too_many_arguments)]
    #[inline(always)]
    pub fn call(
        &mut self,
        alloc: Global,
        number: u64,
        numbers: &[u64],
        first: &[u8],
        second: &[u8],
        third: &[u8],
        out: &mut [u8],
    ) -> u64
        ensures { ServesCall ⟦<C as Keys>⟧.scheme number numbers.now first.now second.now
            third.now out.old out.new self.old self.new result }
    {
        if numbers.len() == SETUP_NUMBERS {
            return self.call_init(alloc, number, numbers, first, second, third);
        }
        if !third.is_empty() {
            return Refusal::BadCall.number();
        }
        match numbers {
            [] if second.is_empty() => self.call_of_bytes(alloc, number, first, out),
            [n] => self.call_of_number(alloc, number, *n, first, second, out),
            [seconds, nanos] => {
                let time = (*seconds, *nanos);
                self.call_at(alloc, number, first, second, time, out)
            }
            [_, _, _, _] if second.is_empty() => self.call_with_draw(number, first, numbers),
            _ => Refusal::BadCall.number(),
        }
    }

    /// Makes the call of this number as [`Session::call`] does, with bytes in its first place alone,
    /// and with nothing to write to. So it makes each call that takes bytes in one place at most, and
    /// writes no answer. Its arguments are few enough to be passed in registers.
    ///
    /// # Errors
    ///
    /// [`Refusal::BadCall`] as [`Session::call`] returns it: before all other refusals, and nothing
    /// changes then.
    ///
    /// # Cost
    ///
    /// That of the call. One that takes bytes in one place at most, and writes nothing, is found by one
    /// look at a table; any other as [`Session::call`] finds it.
    #[inline(always)]
    pub fn call_peer(&mut self, alloc: Global, number: u64, numbers: &[u64], peer: &[u8]) -> u64
        ensures { ServesCall ⟦<C as Keys>⟧.scheme number numbers.now peer.now [] [] [] [] self.old
            self.new result }
    {
        match (number, numbers) {
            (3, []) if peer.is_empty() => self.track_room(),
            (8, []) => self.release(peer),
            (9, []) => self.update_peers(alloc, peer),
            (15, []) => self.status(peer),
            (26, []) if peer.is_empty() => self.retained(),
            (28, []) if peer.is_empty() => self.tracked(),
            (7, [dialer]) => match bool_of(*dialer) {
                Some(dialer) => self.connect(peer, dialer),
                None => Refusal::BadCall.number(),
            },
            (10, [seconds, nanos]) => self.block(peer, *seconds, nanos_of(*nanos)),
            (11, [seconds, nanos]) if peer.is_empty() => {
                self.unblock_expired(*seconds, nanos_of(*nanos))
            }
            (12, [seconds, nanos]) if peer.is_empty() => {
                self.forget_cooled(*seconds, nanos_of(*nanos))
            }
            (23, [seconds, nanos]) => self.eligible(peer, *seconds, nanos_of(*nanos)),
            (24, [seconds, nanos]) => self.acceptable(peer, *seconds, nanos_of(*nanos)),
            (32, [seconds, nanos]) => self.may_listen(peer, *seconds, nanos_of(*nanos)),
            (_, [_, _, _, _]) => self.call_with_draw(number, peer, numbers),
            _ => self.call_of_any(alloc, number, numbers, peer),
        }
    }

    // Any call with bytes in its first place alone. It is out of line, where there is a copy of `call`.
    #[inline(never)]
    fn call_of_any(&mut self, alloc: Global, number: u64, numbers: &[u64], first: &[u8]) -> u64
        ensures { ServesCall ⟦<C as Keys>⟧.scheme number numbers.now first.now [] [] [] []
            self.old self.new result }
    {
        self.call(alloc, number, numbers, first, &[], &[], &mut [])
    }

    // The calls that take nothing.
    fn call_of_nothing(&mut self, number: u64, out: &mut [u8]) -> u64
        ensures { let k = ⟦<C as Keys>⟧.scheme in ServesRequest k (of_nothing k number) out.old
            out.new self.old self.new result }
    {
        match number {
            3 => self.track_room(),
            13 => self.next_unblock(out),
            17 => self.latest_set_index(out),
            18 => self.latest_update(out),
            19 => self.all(out),
            26 => self.retained(),
            27 => self.next_cooled(out),
            28 => self.tracked(),
            _ => Refusal::BadCall.number(),
        }
    }

    // The calls that take bytes, or nothing.
    fn call_of_bytes(&mut self, alloc: Global, number: u64, bytes: &[u8], out: &mut [u8]) -> u64
        ensures { let k = ⟦<C as Keys>⟧.scheme in ServesRequest k (of_bytes k number bytes.now)
            out.old out.new self.old self.new result }
    {
        match number {
            6 => self.reservation(bytes, out),
            8 => self.release(bytes),
            9 => self.update_peers(alloc, bytes),
            15 => self.status(bytes),
            20 => self.info(alloc, bytes, out),
            33 => self.ingress(bytes, out),
            _ if bytes.is_empty() => self.call_of_nothing(number, out),
            _ => Refusal::BadCall.number(),
        }
    }

    // The calls that take a number, and bytes or none.
    fn call_of_number(
        &mut self,
        alloc: Global,
        number: u64,
        n: u64,
        first: &[u8],
        second: &[u8],
        out: &mut [u8],
    ) -> u64
        ensures { let k = ⟦<C as Keys>⟧.scheme in ServesRequest k (of_number k number n first.now
            second.now) out.old out.new self.old self.new result }
    {
        match number {
            2 => self.track(alloc, n, first, second, out),
            7 if second.is_empty() => match bool_of(n) {
                Some(dialer) => self.connect(first, dialer),
                None => Refusal::BadCall.number(),
            },
            16 if first.is_empty() && second.is_empty() => self.get_peer_set(n, out),
            22 if first.is_empty() && second.is_empty() => self.get_random_bit_vec(alloc, n, out),
            29 if first.is_empty() && second.is_empty() => self.ask(n, out),
            _ => Refusal::BadCall.number(),
        }
    }

    // The calls that take a moment.
    fn call_of_moment(&mut self, number: u64, time: (u64, u64), out: &mut [u8]) -> u64
        ensures { let k = ⟦<C as Keys>⟧.scheme in ServesRequest k (of_moment k number time.0
            time.1) out.old out.new self.old self.new result }
    {
        let (seconds, nanos) = (time.0, nanos_of(time.1));
        match number {
            11 => self.unblock_expired(seconds, nanos),
            12 => self.forget_cooled(seconds, nanos),
            14 => self.blocked_peers(seconds, nanos, out),
            25 => self.dialable(seconds, nanos, out),
            _ => Refusal::BadCall.number(),
        }
    }

    // The calls that take a moment, and bytes or none.
    fn call_of_bytes_at(
        &mut self,
        alloc: Global,
        number: u64,
        bytes: &[u8],
        time: (u64, u64),
        out: &mut [u8],
    ) -> u64
        ensures { let k = ⟦<C as Keys>⟧.scheme in ServesRequest k (of_bytes_at k number bytes.now
            time.0 time.1) out.old out.new self.old self.new result }
    {
        let (seconds, nanos) = (time.0, nanos_of(time.1));
        match number {
            10 => self.block(bytes, seconds, nanos),
            21 => self.infos(alloc, bytes, seconds, nanos, out),
            23 => self.eligible(bytes, seconds, nanos),
            24 => self.acceptable(bytes, seconds, nanos),
            32 => self.may_listen(bytes, seconds, nanos),
            30 => self.check(alloc, bytes, seconds, nanos, out),
            _ if bytes.is_empty() => self.call_of_moment(number, time, out),
            _ => Refusal::BadCall.number(),
        }
    }

    // A frame with its verdicts, or the calls that take a moment, and bytes or none.
    fn call_at(
        &mut self,
        alloc: Global,
        number: u64,
        first: &[u8],
        second: &[u8],
        time: (u64, u64),
        out: &mut [u8],
    ) -> u64
        ensures { let k = ⟦<C as Keys>⟧.scheme in ServesRequest k (of_frame k number first.now
            second.now time.0 time.1) out.old out.new self.old self.new result }
    {
        match number {
            31 => self.receive(alloc, first, time.0, nanos_of(time.1), second, out),
            _ if second.is_empty() => self.call_of_bytes_at(alloc, number, first, time, out),
            _ => Refusal::BadCall.number(),
        }
    }

    // The calls that take a peer, a moment and a draw.
    #[inline(never)]
    fn call_with_draw(&mut self, number: u64, peer: &[u8], numbers: &[u64]) -> u64
        requires { length numbers.now ≡ 4 }
        ensures { let k = ⟦<C as Keys>⟧.scheme in ServesRequest k (request_of k number numbers.now
            peer.now [] []) [] [] self.old self.new result }
    {
        let [seconds, nanos, draw_seconds, draw_nanos] = numbers else {
            return Refusal::BadCall.number();
        };
        let (nanos, draw_nanos) = (nanos_of(*nanos), nanos_of(*draw_nanos));
        match number {
            4 => self.dial(peer, *seconds, nanos, *draw_seconds, draw_nanos),
            5 => self.listen(peer, *seconds, nanos, *draw_seconds, draw_nanos),
            _ => Refusal::BadCall.number(),
        }
    }

    // Creates the node: the only call that takes so many numbers. The first two are bools.
    #[inline(never)]
    fn call_init(
        &mut self,
        alloc: Global,
        number: u64,
        numbers: &[u64],
        namespace: &[u8],
        bootstrappers: &[u8],
        myself: &[u8],
    ) -> u64
        requires { length numbers.now ≡ SETUP_NUMBERS }
        ensures { let k = ⟦<C as Keys>⟧.scheme in ServesRequest k (request_of k number numbers.now
            namespace.now bootstrappers.now myself.now) [] [] self.old self.new result }
    {
        if number != 1 {
            return Refusal::BadCall.number();
        }
        match (bool_of(numbers[0]), bool_of(numbers[1])) {
            (Some(private_ips), Some(dns)) => self.init(
                alloc,
                private_ips,
                dns,
                numbers[2],
                numbers[3],
                numbers[4],
                nanos_of(numbers[5]),
                numbers[6],
                nanos_of(numbers[7]),
                numbers[8],
                numbers[9],
                numbers[10],
                numbers[11],
                numbers[12],
                nanos_of(numbers[13]),
                namespace,
                bootstrappers,
                myself,
            ),
            _ => Refusal::BadCall.number(),
        }
    }
}
