// A byte looked for among bytes: where it first stands.
// What it promises is in specs/Bytes.
ghost use Rattle.text.specs.Bytes.{FoundAt};

pub fn find(text: &[u8], byte: u8) -> Option<usize>
    ensures { FoundAt byte text.now result }
{
    text.iter().position(|b| *b == byte)
}
