// What the code of a body may name, and its types.
ghost use Rattle.std.specs.Prelude.{◌≡◌, [], ◌∷◌, slice_get, nat_lt, option_map, IfOk};
ghost use Rattle.spec_validation.specs.Context.{block_type};
ghost use Rattle.wasm_typing.specs.GroupEnds.{AreEnds};
ghost use Rattle.wasm_typing.specs.Contexts.{context_of, signature_of};

use crate::locals::{declared_local, group_ends};
use std::alloc::{AllocError, Global};
use wasm_form::{BlockType, FuncType, GlobalType, Group, ValType};

/// What the code of a body may name (section 3.1.1). The functions are given by their type numbers, the tables and
/// the element segments by the types of their entries, and the locals by the parameters and the declared groups.
#[derive(Clone, Copy)]
pub struct Env<'a> {
    pub types: &'a [FuncType],
    pub functions: &'a [u32],
    pub globals: &'a [GlobalType],
    pub tables: &'a [ValType],
    pub elems: &'a [ValType],
    pub memory: bool,
    pub datas: usize,
    /// Which functions the body may refer to.
    pub refers: &'a [bool],
    pub params: &'a [ValType],
    pub groups: &'a [Group],
    pub results: &'a [ValType],
}

/// What is taken and what is given.
#[derive(Clone, Copy)]
pub struct Signature<'a> {
    pub params: &'a [ValType],
    pub results: &'a [ValType],
}

/// What a body may name, with the ends of its groups of locals.
#[derive(Drop)]
pub struct Scope<'a> {
    pub env: Env<'a>,
    ends: Vec<u64>,
    ghost ends_known: { AreEnds env.groups.now ends.items },
}

impl<'a> Scope<'a> {
    /// What a body may name.
    pub fn new(alloc: Global, env: &Env<'a>) -> Result<Scope<'a>, AllocError>
        ensures { IfOk result (λ scope. scope.env ≡ env.now) }
    {
        let ends = group_ends(alloc, env.groups)?;
        Ok(Scope { env: *env, ends })
    }

    /// A type of the module.
    pub fn type_at(&self, n: u32) -> Option<Signature<'a>>
        ensures { option_map signature_of result ≡ (context_of self.now.env).types n }
    {
        let ty = self.env.types.get(n as usize)?;
        Some(Signature {
            params: ty.params.items(),
            results: ty.results.items(),
        })
    }

    /// The type of a function.
    pub fn function(&self, n: u32) -> Option<Signature<'a>>
        ensures { option_map signature_of result ≡ (context_of self.now.env).functions n }
    {
        let ty = self.env.functions.get(n as usize)?;
        self.type_at(*ty)
    }

    /// The type of a global.
    pub fn global(&self, n: u32) -> Option<GlobalType>
        ensures { result ≡ (context_of self.now.env).globals n }
    {
        self.env.globals.get(n as usize).copied()
    }

    /// The type of a table's entries.
    pub fn table(&self, n: u32) -> Option<ValType>
        ensures { result ≡ (context_of self.now.env).tables n }
    {
        self.env.tables.get(n as usize).copied()
    }

    /// The type of an element segment's items.
    pub fn elem(&self, n: u32) -> Option<ValType>
        ensures { result ≡ (context_of self.now.env).elems n }
    {
        self.env.elems.get(n as usize).copied()
    }

    /// Whether there is a memory.
    pub fn has_memory(&self) -> bool
        ensures { result ≡ (context_of self.now.env).memory }
    {
        self.env.memory
    }

    /// Whether there is such a data segment.
    pub fn has_data(&self, n: u32) -> bool
        ensures { result ≡ nat_lt n (context_of self.now.env).datas }
    {
        (n as usize) < self.env.datas
    }

    /// Whether the body may refer to a function.
    pub fn refers(&self, n: u32) -> bool
        ensures { result ≡ (context_of self.now.env).refers n }
    {
        match self.env.refers.get(n as usize) {
            Some(marked) => *marked,
            None => false,
        }
    }

    /// The type of a local: the parameters come first.
    pub fn local(&self, n: u32) -> Option<ValType>
        ensures { result ≡ slice_get (context_of self.now.env).locals n }
    {
        let params = self.env.params;
        if (n as usize) < params.len() {
            return Some(params[n as usize]);
        }
        declared_local(self.env.groups, &self.ends, n - params.len() as u32)
    }

    /// The results of the body.
    pub fn results(&self) -> &'a [ValType]
        ensures { result.now ≡ (context_of self.now.env).results }
    {
        self.env.results
    }

    /// The type of a block.
    pub fn block(&self, ty: &BlockType) -> Option<Signature<'a>>
        ensures { option_map signature_of result ≡ block_type (context_of self.now.env) ty.now }
    {
        match ty {
            BlockType::Empty => Some(Signature {
                params: &[],
                results: &[],
            }),
            BlockType::Value(result) => Some(Signature {
                params: &[],
                results: one(*result),
            }),
            BlockType::Index(n) => self.type_at(*n),
        }
    }
}

/// This type alone.
fn one(ty: ValType) -> &'static [ValType]
    ensures { result.now ≡ ty ∷ [] }
{
    match ty {
        ValType::I32 => &[ValType::I32],
        ValType::I64 => &[ValType::I64],
        ValType::F32 => &[ValType::F32],
        ValType::F64 => &[ValType::F64],
        ValType::FuncRef => &[ValType::FuncRef],
        ValType::ExternRef => &[ValType::ExternRef],
    }
}
