// The block load: a block of an image, read and loaded.
ghost use Rattle.std.specs.Prelude.{◌≡◌};
ghost use Rattle.drive.specs.Blocks.{marked, block_load};

use crate::Drive;
use crate::answer::{Reply, settle};
use crate::causes::BLOCK_REFUSED;
use images::reader::{body, numbers_of, verdict};
use numbers::pick;
use states::State;

impl Drive {
    // With flag 12.
    pub(crate) fn marked(self) -> Drive
        ensures { result ≡ marked self }
    {
        Drive {
            flags: self.flags | BLOCK_REFUSED,
            ..self
        }
    }

    // A load of a block's body. Refused in IDLE, a body that was found leaves flag 12.
    pub fn load_block(self, image: &[u8], block: u8) -> Reply
        ensures { result ≡ block_load self image.now block }
    {
        let found = verdict(image, block);
        if found.is_err() {
            return settle(found, self, self);
        }
        let body = body(image, block);
        let numbers = numbers_of(body);
        let left = pick(self.state == State::Idle, self.marked(), self);
        self.load_or(&numbers[..body.len() / 2], left)
    }
}
