// The bits of CDMACR and CDMASR by their numbers, as in PG034.
ghost use Rattle.std.specs.Prelude.{◌≡◌, ◌<◌};
ghost use Rattle.state.specs.Bits.{bit as bit_of};

// CDMACR. Bit 1 (TailPntrEn) and the field from bit 16 on (IRQThreshold) always read 1.
pub const TAIL_PNTR_EN: u32 = 1;

pub const RESET: u32 = 2;

pub const SG_MODE: u32 = 3;

pub const KEY_HOLE_READ: u32 = 4;

pub const KEY_HOLE_WRITE: u32 = 5;

pub const IOC_IRQ_EN: u32 = 12;

pub const ERR_IRQ_EN: u32 = 14;

pub const IRQ_THRESHOLD: u32 = 16;

// CDMASR. Bit 3 (SGIncld) and the field from bit 16 on (IRQThresholdSts) always read 1.
pub const IDLE: u32 = 1;

pub const SG_INCLD: u32 = 3;

pub const DMA_INT_ERR: u32 = 4;

pub const DMA_SLV_ERR: u32 = 5;

pub const DMA_DEC_ERR: u32 = 6;

pub const SG_INT_ERR: u32 = 8;

pub const SG_SLV_ERR: u32 = 9;

pub const SG_DEC_ERR: u32 = 10;

pub const IOC_IRQ: u32 = 12;

pub const ERR_IRQ: u32 = 14;

pub const IRQ_THRESHOLD_STS: u32 = 16;

// Whether a value has the bit.
pub fn bit(value: u32, number: u32) -> bool
    requires { number < 32 }
    ensures { result ≡ bit_of number value }
{
    (value >> number) % 2 == 1
}
