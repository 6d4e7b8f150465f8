// How much answers write.
ghost use Rattle.std.specs.Prelude.{◌≡◌, ◌<◌, ◌^◌};
ghost use Rattle.spec_hosts.specs.Ends.{bytes_written};

use spec_hosts::wasm_form::Answer;

/// The bytes that an answer writes.
pub fn bytes_written(answer: &Answer) -> u128
    ensures bytes { result ≡ bytes_written answer.now }
    ensures below { result < 2 ^ 127 }
{
    match answer {
        Answer::Exit(_) => 0,
        Answer::Reply { writes, .. } => {
            let mut bytes = 0;
            for write in writes.items() {
                bytes += write.bytes.items().len() as u128;
            }
            bytes
        }
    }
}
