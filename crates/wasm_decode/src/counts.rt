// Whether the numbers agree that sections say of one another (WebAssembly Core 2.0, sections 5.5.15 and 5.5.16).
ghost use Rattle.std.specs.Prelude.{◌≡◌, ℕ};
ghost use Rattle.spec_reading.specs.spec_binary.Trees.{every, every_of};
ghost use Rattle.spec_reading.specs.spec_binary.WellFormed.{names_no_data};
ghost use Rattle.spec_reading.specs.Sections.{leaves_data, is_data_counted, counts_agree};
ghost use Rattle.wasm_decode.specs.Counts.{other_names_no_data};

use wasm_form::{Code, Expr, Instr, Module};

// Whether no data segment is named in the instruction.
#[cycle(data)]
#[tactic(auto, using(crate::proofs::DataNames::names_laws))]
fn instr_names_no_data(instr: &Instr) -> bool
    ensures { result ≡ every names_no_data instr.now }
{
    match instr {
        Instr::Block(_, body) => all_name_no_data(body.list.items()),
        Instr::Loop(_, body) => all_name_no_data(body.list.items()),
        Instr::If(_, body, other) => {
            all_name_no_data(body.list.items()) && other_names_no_data(other)
        }
        Instr::Prefixed { op, .. } => *op != 8 && *op != 9,
        _ => true,
    }
}

#[cycle(data)]
fn other_names_no_data(other: &Option<Expr>) -> bool
    ensures { result ≡ other_names_no_data other.now }
{
    match other {
        None => true,
        Some(other) => all_name_no_data(other.list.items()),
    }
}

// Whether no data segment is named in the instructions.
#[cycle(data)]
fn all_name_no_data(instrs: &[Instr]) -> bool
    ensures { result ≡ every_of names_no_data instrs.now }
{
    for instr in instrs {
        if !instr_names_no_data(instr) {
            return false;
        }
    }
    true
}

// Whether no data segment is named in the body.
fn leaves_data(code: &Code) -> bool
    ensures { result ≡ leaves_data code.now }
{
    all_name_no_data(code.body.list.items())
}

// Whether the number of data segments is the one that is told, or none is named.
fn is_data_counted(m: &Module) -> bool
    ensures { result ≡ is_data_counted m.now.data_count m.now }
{
    match m.data_count {
        Some(count) => count as usize == m.datas.items().len(),
        None => m.codes.items().iter().all(|code| leaves_data(code)),
    }
}

// Whether there are as many bodies as functions, and the data segments are counted.
pub(crate) fn counts_agree(m: &Module) -> bool
    ensures { result ≡ counts_agree m.now }
{
    m.codes.items().len() == m.funcs.items().len() && is_data_counted(m)
}
