// A payload as a frame carries it.
ghost use Rattle.std.specs.Prelude.{◌<◌, length};

// Its bytes: no more of them than the length field of a frame can say.
#[derive(Clone, Copy)]
pub struct Payload<'a> {
    pub bytes: &'a [u8],
    ghost short: { length bytes.now < 65536 },
}
