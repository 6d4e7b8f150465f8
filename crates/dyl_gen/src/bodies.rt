// The bodies of a member's functions.
ghost use Rattle.std.specs.Prelude.{◌≡◌, ◌<◌, ◌≤◌, pos, IfOk};
ghost use Rattle.dyl_gen.specs.Generated as made;
ghost use Rattle.dyl_gen.specs.Generated.{
  number,
  call,
  load,
  store,
  value_code,
  sum_code,
  function_code,
  relocation_code,
  constructor_code,
  write_code,
  total_code,
  put_code,
  start_code,
  code_of,
  bodies,
};

use crate::names::is_main;
use std::alloc::Global;
use wasm_form::{BlockType, Code, Expr, Instr, List, Memory, ValType};

const DROP: Instr = Instr::Plain(0x1A);

const PARAMETER: Instr = Instr::Index(0x20, 0);

const IS_ZERO: Instr = Instr::Plain(0x45);

const ADD: Instr = Instr::Plain(0x6A);

const SUBTRACT: Instr = Instr::Plain(0x6B);

// The address of the member's region.
const BASE: Instr = Instr::Index(0x23, 0);

// The address of the next member's value.
const NEXT_VALUE: Instr = Instr::Index(0x23, 1);

// The slot of the next member's function.
const NEXT_SLOT: Instr = Instr::Index(0x23, 2);

fn number(c: u32) -> Instr
    requires { c < 65536 }
    ensures { result ≡ number c }
{
    Instr::I32Const(c as i32)
}

fn call(f: u32) -> Instr
    ensures { result ≡ call f }
{
    Instr::Index(0x10, f)
}

fn load(offset: u32) -> Instr
    ensures { result ≡ load offset }
{
    Instr::Access {
        op: 0x28,
        align: 2,
        offset,
    }
}

fn store(offset: u32) -> Instr
    ensures { result ≡ store offset }
{
    Instr::Access {
        op: 0x36,
        align: 2,
        offset,
    }
}

// The value of the member.
fn value_code(alloc: Global) -> Result<Expr, Memory>
    ensures { IfOk result (λ e. e.list ≡ value_code) }
{
    let code = vec![in alloc; BASE, load(0)]?;
    Ok(Expr {
        list: List::of(code),
    })
}

// That value, and the sum of the values of the members after it.
fn sum_code(alloc: Global) -> Result<Expr, Memory>
    ensures { IfOk result (λ e. e.list ≡ sum_code) }
{
    let code = vec![in alloc;
        BASE,
        load(0),
        PARAMETER,
        number(1),
        SUBTRACT,
        NEXT_SLOT,
        Instr::CallIndirect { ty: 1, table: 0 },
        ADD,
    ]?;
    Ok(Expr {
        list: List::of(code),
    })
}

// The function of a member.
fn function_code(alloc: Global) -> Result<Vec<Instr>, Memory>
    ensures { IfOk result (λ x. x.items ≡ function_code) }
{
    let value = value_code(alloc)?;
    let sum = sum_code(alloc)?;
    let choice = Instr::If(BlockType::Value(ValType::I32), value, Some(sum));
    Ok(vec![in alloc; PARAMETER, IS_ZERO, choice]?)
}

// The address of the next member's value is written behind the member's own.
fn relocation_code(alloc: Global) -> Result<Vec<Instr>, Memory>
    ensures { IfOk result (λ x. x.items ≡ relocation_code) }
{
    Ok(vec![in alloc; BASE, NEXT_VALUE, store(4)]?)
}

// 1 is added to the value at that address.
fn constructor_code(alloc: Global) -> Result<Vec<Instr>, Memory>
    ensures { IfOk result (λ x. x.items ≡ constructor_code) }
{
    Ok(vec![in alloc;
        BASE,
        load(4),
        BASE,
        load(4),
        load(0),
        number(1),
        ADD,
        store(0),
    ]?)
}

// A number is written at an address.
fn write_code(alloc: Global, address: u32, c: u32) -> Result<Vec<Instr>, Memory>
    requires address { address < 65536 }
    requires number { c < 65536 }
    ensures { IfOk result (λ x. x.items ≡ write_code address c) }
{
    Ok(vec![in alloc; number(address), number(c), store(0)]?)
}

// The sum is written at 1024.
fn total_code(alloc: Global, n: u32) -> Result<Vec<Instr>, Memory>
    requires some { 0 < n }
    requires few { n ≤ 255 }
    ensures { IfOk result (λ x. x.items ≡ total_code n) }
{
    Ok(vec![in alloc; number(1024), number(n - 1), call(0), store(0)]?)
}

// The four bytes at 1024 are put to descriptor 1.
fn put_code(alloc: Global) -> Result<Vec<Instr>, Memory>
    ensures { IfOk result (λ x. x.items ≡ put_code) }
{
    let mut code = write_code(alloc, 1032, 1024)?;
    let mut size = write_code(alloc, 1036, 4)?;
    let mut put = vec![in alloc;
        number(1),
        number(1032),
        number(1),
        number(1040),
        call(1),
        DROP,
    ]?;
    code.append(&mut size)?;
    code.append(&mut put)?;
    Ok(code)
}

// The entry of the main module of n.
fn start_code(alloc: Global, n: u32) -> Result<Vec<Instr>, Memory>
    requires some { 0 < n }
    requires few { n ≤ 255 }
    ensures { IfOk result (λ x. x.items ≡ start_code n) }
{
    let mut code = vec![in alloc; call(4)]?;
    let mut total = total_code(alloc, n)?;
    let mut put = put_code(alloc)?;
    code.append(&mut total)?;
    code.append(&mut put)?;
    Ok(code)
}

// A body without further locals.
fn code_of(alloc: Global, code: Vec<Instr>) -> Code
    ensures { result ≡ code_of code.items }
{
    Code {
        locals: List::of(Vec::new(alloc)),
        body: Expr {
            list: List::of(code),
        },
    }
}

// The bodies of a member of n.
pub(crate) fn bodies(alloc: Global, n: u32, k: u32) -> Result<List<Code>, Memory>
    requires some { 0 < n }
    requires few { n ≤ 255 }
    ensures { IfOk result (λ x. x ≡ bodies n k) }
{
    let mut codes = Vec::new(alloc);
    codes.push(code_of(alloc, function_code(alloc)?))?;
    codes.push(code_of(alloc, relocation_code(alloc)?))?;
    codes.push(code_of(alloc, constructor_code(alloc)?))?;
    if is_main(k) {
        codes.push(code_of(alloc, start_code(alloc, n)?))?;
    }
    Ok(List::of(codes))
}
