// include/belikumba.h, "Monitor": a monitor as the 14 numbers that its caller keeps, and a clock as C hands it over.
ghost use Rattle.std.specs.Prelude.{◌≡◌, ◌≤◌};
ghost use Rattle.clocks.specs.MonitorWords.{bits_of, low_of, high_of, flags_from, clock_from, fields_from, monitor_from, monitor_words_of};

use monitor::clock::Clock;
use monitor::monitor::Monitor;

// The fields of a clock; bit 0 of `bits` is reset-high, bit 1 valid, bit 2 ready.
#[repr(C)]
#[derive(Clone, Copy)]
pub struct ClockForC {
    pub bits: u32,
    pub address: u32,
    pub length: u32,
    pub size: u32,
    pub burst: u32,
    pub cache: u32,
    pub prot: u32,
    pub qos: u32,
    pub region: u32,
    pub id: u32,
}

// Bits above the lowest three are for the caller to judge.
pub fn clock(fields: ClockForC) -> Clock
    ensures { result ≡ clock_from fields }
{
    Clock {
        aresetn: fields.bits % 2 == 1,
        valid: fields.bits / 2 % 2 == 1,
        ready: fields.bits / 4 % 2 == 1,
        address: fields.address,
        length: fields.length,
        size: fields.size,
        burst: fields.burst,
        cache: fields.cache,
        prot: fields.prot,
        qos: fields.qos,
        region: fields.region,
        id: fields.id,
    }
}

fn bits(clock: Clock) -> u32
    ensures { result ≡ bits_of clock }
{
    u32::from(clock.aresetn) + 2 * u32::from(clock.valid) + 4 * u32::from(clock.ready)
}

fn low(flags: u64) -> u32
    ensures { result ≡ low_of flags }
{
    (flags & 0xffffffff) as u32
}

fn high(flags: u64) -> u32
    ensures { result ≡ high_of flags }
{
    (flags >> 32) as u32
}

fn flags_from(low: u32, high: u32) -> u64
    ensures { result ≡ flags_from low high }
{
    (u64::from(high) << 32) + u64::from(low)
}

fn fields(words: &[u32; 14]) -> ClockForC
    ensures { result ≡ fields_from words.now }
{
    ClockForC {
        bits: words[4],
        address: words[5],
        length: words[6],
        size: words[7],
        burst: words[8],
        cache: words[9],
        prot: words[10],
        qos: words[11],
        region: words[12],
        id: words[13],
    }
}

pub fn load(words: &[u32; 14]) -> Monitor
    ensures { result ≡ monitor_from words.now }
{
    Monitor {
        flags: flags_from(words[0], words[1]),
        snapshot: flags_from(words[2], words[3]),
        before: clock(fields(words)),
    }
}

pub fn store(monitor: Monitor, words: &mut [u32; 14])
    ensures { words.new ≡ monitor_words_of monitor }
{
    let before = monitor.before;
    *words = [
        low(monitor.flags),
        high(monitor.flags),
        low(monitor.snapshot),
        high(monitor.snapshot),
        bits(before),
        before.address,
        before.length,
        before.size,
        before.burst,
        before.cache,
        before.prot,
        before.qos,
        before.region,
        before.id,
    ];
}
