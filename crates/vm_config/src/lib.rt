//! The tables of all instructions, as one lawful extension.
#![tactic(auto)]

ghost use Rattle.std.specs.Prelude.{◌≡◌, ◌+◌, ◌≤◌, ℕ, true, [], ◌∷◌, length};
ghost use Rattle.air_core.specs.ExtensionLaws.{width_of};
ghost use Rattle.air_core.specs.Join.{join};
ghost use Rattle.air_core.specs.System.{is_owned};
ghost use Rattle.gadget_time.specs.Form.{owns_of};
ghost use Rattle.vm_config.specs.Config.{standing, arithmetic_forms, access_forms, branch_forms, jump_forms, product_forms, io_forms, rv32i, rv32m, io, full};

pub mod laws;

use air_core::{Both, Extension, Single};
use chip_alu::AluAt;
use chip_branch::{BranchEqAt, BranchLtAt};
use chip_divrem::DivRemAt;
use chip_io::{HintAt, NopAt, RevealAt};
use chip_jump::{AuipcAt, JalLuiAt, JalrAt};
use chip_less::LessAt;
use chip_load::LoadAt;
use chip_mul::MulAt;
use chip_sha_main::{ShaExtension, ShaExtensionAt};
use chip_shift::ShiftAt;
use chip_store::StoreAt;
use gadget_time::{FormChip, TableForm};

/// The tables of sums and bits, of order, and of shifts.
pub type ArithmeticAt<const HI: u32> = Both<
    Both<Single<AluAt<HI>>, Single<LessAt<HI>>>,
    Single<ShiftAt<HI>>,
>;

/// The tables of loads and of stores.
pub type AccessesAt<const HI: u32> = Both<Single<LoadAt<HI>>, Single<StoreAt<HI>>>;

/// The tables of branches: by equality and by order.
pub type BranchesAt<const HI: u32> = Both<Single<BranchEqAt<HI>>, Single<BranchLtAt<HI>>>;

/// The tables of jumps, with LUI and AUIPC.
pub type JumpsAt<const HI: u32> = Both<
    Both<Single<JalLuiAt<HI>>, Single<AuipcAt<HI>>>,
    Single<JalrAt<HI>>,
>;

/// The tables of RV32I, 0 to 10. Times have HI bits above the lower 16.
pub type Rv32IAt<const HI: u32> = Both<
    Both<ArithmeticAt<HI>, AccessesAt<HI>>,
    Both<Both<BranchesAt<HI>, JumpsAt<HI>>, Single<NopAt<HI>>>,
>;

/// The tables of RV32M, 11 and 12.
pub type Rv32MAt<const HI: u32> = Both<Single<MulAt<HI>>, Single<DivRemAt<HI>>>;

/// The tables of hints and of public bytes, 13 and 14.
pub type IoAt<const HI: u32> = Both<Single<HintAt<HI>>, Single<RevealAt<HI>>>;

/// All tables, with those of SHA blocks, 15 and 16, behind these.
pub type FullAt<const HI: u32> = Both<
    Both<Both<Rv32IAt<HI>, Rv32MAt<HI>>, IoAt<HI>>,
    ShaExtensionAt<HI>,
>;

/// The tables of RV32I with times of 24 bits.
pub type Rv32I = Rv32IAt<8>;

/// The tables of RV32M with times of 24 bits.
pub type Rv32M = Rv32MAt<8>;

/// The tables of hints and of public bytes with times of 24 bits.
pub type Io = IoAt<8>;

/// The tables of SHA blocks with times of 24 bits.
pub type Sha = ShaExtension;

/// All tables with times of 24 bits.
pub type Full = FullAt<8>;

// A table alone.
fn table<T: TableForm, const HI: u32>() -> Single<FormChip<T, HI>>
    requires low { 8 ≤ HI }
    requires high { HI ≤ 13 }
    requires alone { (T.form).alone ≡ true }
    ensures { ⟦<Single<FormChip<T, HI>> as Extension>⟧.system result ≡ standing (T.form ∷ []) HI }
{
    Single::new(FormChip::new())
}

fn arithmetic<const HI: u32>() -> ArithmeticAt<HI>
    requires low { 8 ≤ HI }
    requires high { HI ≤ 13 }
    ensures { ⟦<ArithmeticAt<HI> as Extension>⟧.system result ≡ standing arithmetic_forms HI }
{
    Both::new(Both::new(table(), table()), table())
}

fn accesses<const HI: u32>() -> AccessesAt<HI>
    requires low { 8 ≤ HI }
    requires high { HI ≤ 13 }
    ensures { ⟦<AccessesAt<HI> as Extension>⟧.system result ≡ standing access_forms HI }
{
    Both::new(table(), table())
}

fn branches<const HI: u32>() -> BranchesAt<HI>
    requires low { 8 ≤ HI }
    requires high { HI ≤ 13 }
    ensures { ⟦<BranchesAt<HI> as Extension>⟧.system result ≡ standing branch_forms HI }
{
    Both::new(table(), table())
}

fn jumps<const HI: u32>() -> JumpsAt<HI>
    requires low { 8 ≤ HI }
    requires high { HI ≤ 13 }
    ensures { ⟦<JumpsAt<HI> as Extension>⟧.system result ≡ standing jump_forms HI }
{
    Both::new(Both::new(table(), table()), table())
}

/// The tables of RV32I, 0 to 10.
pub fn rv32i_at<const HI: u32>() -> Rv32IAt<HI>
    requires low { 8 ≤ HI }
    requires high { HI ≤ 13 }
    ensures { ⟦<Rv32IAt<HI> as Extension>⟧.system result ≡ rv32i HI }
{
    let low = Both::new(arithmetic(), accesses());
    let high = Both::new(Both::new(branches(), jumps()), table());
    Both::new(low, high)
}

/// The tables of RV32M, 11 and 12.
pub fn rv32m_at<const HI: u32>() -> Rv32MAt<HI>
    requires low { 8 ≤ HI }
    requires high { HI ≤ 13 }
    ensures { ⟦<Rv32MAt<HI> as Extension>⟧.system result ≡ rv32m HI }
{
    Both::new(table(), table())
}

/// The tables of hints and of public bytes, 13 and 14.
pub fn io_at<const HI: u32>() -> IoAt<HI>
    requires low { 8 ≤ HI }
    requires high { HI ≤ 13 }
    ensures { ⟦<IoAt<HI> as Extension>⟧.system result ≡ io HI }
{
    Both::new(table(), table())
}

/// All tables, 0 to 16.
pub fn full_at<const HI: u32>() -> FullAt<HI>
    requires low { 8 ≤ HI }
    requires high { HI ≤ 13 }
    ensures { ⟦<FullAt<HI> as Extension>⟧.system result ≡ full HI }
{
    let words = Both::new(rv32i_at(), rv32m_at());
    Both::new(Both::new(words, io_at()), ShaExtensionAt::new())
}

/// All tables with times of 24 bits.
pub fn full() -> Full
    ensures { ⟦<Full as Extension>⟧.system result ≡ full 8 }
{
    full_at()
}
