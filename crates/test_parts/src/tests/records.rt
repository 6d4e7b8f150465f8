// A record that is made in code, and its bytes.
ghost use Rattle.std.specs.Prelude.{◌≡◌, [], ◌∷◌, codes, IfOk};
ghost use Rattle.dyl_section.specs.Written.{IsWritable};

use dyl_section::{Dylink, ExportInfo, ImportInfo, write_dylink};
use std::alloc::{AllocError, Global};
use wasm_form::{List, Text};

fn text(alloc: Global, s: &str) -> Result<Text, AllocError>
    ensures { IfOk result (λ t. t ≡ s.now) }
{
    Ok(Text::of(String::from_str(alloc, s)?))
}

fn one_name(alloc: Global) -> Result<List<Text>, AllocError>
    ensures { IfOk result (λ names. names ≡ codes "libc.so" ∷ []) }
{
    let name = text(alloc, "libc.so")?;
    Ok(List::of(vec![in alloc; name]?))
}

fn one_export(alloc: Global) -> Result<List<ExportInfo>, AllocError>
    ensures { IfOk result (λ notes. notes ≡ record { name = codes "x"; flags = 257 } ∷ []) }
{
    let export = ExportInfo {
        name: text(alloc, "x")?,
        flags: 257,
    };
    Ok(List::of(vec![in alloc; export]?))
}

fn one_import(alloc: Global) -> Result<List<ImportInfo>, AllocError>
    ensures { IfOk result (λ notes. notes ≡ record { «module» = codes "env"; field = codes "f"; flags = 16 } ∷ []) }
{
    let import = ImportInfo {
        module: text(alloc, "env")?,
        field: text(alloc, "f")?,
        flags: 16,
    };
    Ok(List::of(vec![in alloc; import]?))
}

// A record with one thing of each list but the paths.
fn sample(alloc: Global) -> Result<Dylink, AllocError>
    ensures { IfOk result IsWritable }
{
    Ok(Dylink {
        mem_size: 65536,
        mem_align: 4,
        table_size: 300,
        table_align: 0,
        needed: one_name(alloc)?,
        exports: one_export(alloc)?,
        imports: one_import(alloc)?,
        paths: List::of(Vec::new(alloc)),
    })
}

// The sample as it is written.
fn written(alloc: Global) -> Result<Vec<u8>, AllocError> {
    let d = sample(alloc)?;
    let bytes = write_dylink(alloc, &d);
    drop(d);
    match bytes {
        Ok(bytes) => Ok(bytes),
        Err(_) => Err(AllocError),
    }
}

// The sample's bytes, which a row reads again.
const WRITTEN: &[u8] = &[
    0x01, 0x07, 0x80, 0x80, 0x04, 0x04, 0xac, 0x02, 0x00, 0x02, 0x09, 0x01, 0x07, 0x6c, 0x69, 0x62,
    0x63, 0x2e, 0x73, 0x6f, 0x03, 0x05, 0x01, 0x01, 0x78, 0x81, 0x02, 0x04, 0x08, 0x01, 0x03, 0x65,
    0x6e, 0x76, 0x01, 0x66, 0x10,
];

#[test]
fn writes_a_record(rt: HostRuntime) -> Result<(), AllocError> {
    let found = written(rt.alloc())?;
    assert!(rt; found.as_slice() == WRITTEN);
    Ok(())
}
