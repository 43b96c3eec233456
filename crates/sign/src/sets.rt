// The other character set.
ghost use Rattle.std.specs.Prelude.{◌≡◌};
ghost use Rattle.sign.specs.Transcription.{other_set};

use charset::Charset;

pub fn other_set(set: Charset) -> Charset
    ensures { result ≡ other_set set }
{
    match set {
        Charset::Fsw => Charset::Swu,
        Charset::Swu => Charset::Fsw,
    }
}
