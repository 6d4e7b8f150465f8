// The parts of the merged module of a linked set.
mod codes;
mod constants;
mod counts;
mod datas;
mod elems;
mod exports;
mod funcs;
mod given;
mod globals;
mod hosts;
mod imports;
mod loader;
mod segments;
mod starts;
mod stubs;
mod tables;
mod types;
pub(crate) mod whole;
