// What a line asks for.
use block::{BLOCK, Block, from_bytes};
use std::alloc::{AllocError, AllocFailed, Global};
use std::array::TryFromSliceError;
use std::str::{FromStr, Split, Utf8Error};

#[derive(Clone, Copy)]
pub enum CipherName {
    Aes128,
    Speck,
}

#[derive(Clone, Copy)]
pub enum Way {
    Seal,
    Open,
}

// A text that goes through a mode.
#[derive(Drop)]
pub struct Passage {
    pub tweak: Block,
    pub text: Vec<u8>,
    pub way: Way,
}

// What a cipher does, alone or in a mode.
#[derive(Drop)]
pub enum Task {
    Block {
        key: Block,
        block: Block,
        way: Way,
    },
    Xts {
        first: Block,
        second: Block,
        passage: Passage,
    },
    Xcb {
        key: Block,
        passage: Passage,
    },
}

#[derive(Drop)]
pub enum Request {
    Cipher(CipherName, Task),
    Product(Block, Block),
    Hash(Block, Vec<Block>),
    Double(Block),
    Cards(Vec<u8>, Vec<u8>),
}

// Why there is no request.
#[derive(Clone, Copy)]
pub enum Unread {
    Malformed,
    Memory(AllocError),
}

impl From<AllocError> for Unread {
    fn from(error: AllocError) -> Unread {
        Unread::Memory(error)
    }
}

impl<T: Drop> From<AllocFailed<T>> for Unread {
    fn from(failed: AllocFailed<T>) -> Unread {
        Unread::Memory(failed.into())
    }
}

// No word of a request has a character beyond ASCII.
impl From<Utf8Error> for Unread {
    fn from(_: Utf8Error) -> Unread {
        Unread::Malformed
    }
}

impl From<TryFromSliceError> for Unread {
    fn from(_: TryFromSliceError) -> Unread {
        Unread::Malformed
    }
}

impl FromStr for CipherName {
    type Err = Unread;

    fn from_str(name: &str) -> Result<CipherName, Unread> {
        match name {
            "aes128" => Ok(CipherName::Aes128),
            "speck" => Ok(CipherName::Speck),
            _ => Err(Unread::Malformed),
        }
    }
}

// The words of a line, one space between two.
#[derive(Drop)]
struct Words<'a> {
    heap: Global,
    words: Split<'a, char>,
}

impl<'a> Words<'a> {
    fn word(&mut self) -> Result<&'a str, Unread> {
        self.words.next().ok_or(Unread::Malformed)
    }

    // The bytes of the next word; no bytes at all are written `-`.
    fn bytes(&mut self) -> Result<Vec<u8>, Unread> {
        match self.word()? {
            "" => Err(Unread::Malformed),
            "-" => Ok(Vec::new(self.heap)),
            word => hexadecimal::decode(self.heap, word.as_bytes())?.ok_or(Unread::Malformed),
        }
    }

    // The block of the next word, which has to be of 16 bytes.
    fn block(&mut self) -> Result<Block, Unread> {
        let bytes = self.bytes()?;
        Ok(from_bytes(<[u8; BLOCK]>::try_from(bytes.as_slice())?))
    }

    // The blocks of the next word, whole ones.
    fn blocks(&mut self) -> Result<Vec<Block>, Unread> {
        let bytes = self.bytes()?;
        let (blocks, rest) = bytes.as_chunks::<BLOCK>();
        if !rest.is_empty() {
            return Err(Unread::Malformed);
        }
        Ok(blocks.iter().copied().map(from_bytes).collect(self.heap)?)
    }

    // Sealing, or opening where the next word says so.
    fn way(&mut self) -> Result<Way, Unread> {
        match self.words.next() {
            None => Ok(Way::Seal),
            Some("open") => Ok(Way::Open),
            Some(_) => Err(Unread::Malformed),
        }
    }

    fn passage(&mut self) -> Result<Passage, Unread> {
        Ok(Passage {
            tweak: self.block()?,
            text: self.bytes()?,
            way: self.way()?,
        })
    }

    // A cipher's name alone, or behind that of a mode.
    fn cipher_request(&mut self, command: &str) -> Result<Request, Unread> {
        let (cipher, task) = match command.split_once('-') {
            None => (
                command.parse()?,
                Task::Block {
                    key: self.block()?,
                    block: self.block()?,
                    way: self.way()?,
                },
            ),
            Some(("xts", cipher)) => (
                cipher.parse()?,
                Task::Xts {
                    first: self.block()?,
                    second: self.block()?,
                    passage: self.passage()?,
                },
            ),
            Some(("xcb", cipher)) => (
                cipher.parse()?,
                Task::Xcb {
                    key: self.block()?,
                    passage: self.passage()?,
                },
            ),
            Some(_) => return Err(Unread::Malformed),
        };
        Ok(Request::Cipher(cipher, task))
    }

    fn request(&mut self) -> Result<Request, Unread> {
        Ok(match self.word()? {
            "product" => Request::Product(self.block()?, self.block()?),
            "hash" => Request::Hash(self.block()?, self.blocks()?),
            "double" => Request::Double(self.block()?),
            "cards" => Request::Cards(self.bytes()?, self.bytes()?),
            command => self.cipher_request(command)?,
        })
    }

    // No word is left.
    fn end(&mut self) -> Result<(), Unread> {
        match self.words.next() {
            None => Ok(()),
            Some(_) => Err(Unread::Malformed),
        }
    }
}

pub(crate) fn parse(heap: Global, line: &[u8]) -> Result<Request, Unread> {
    let words = str::from_utf8(line)?.split(' ');
    let mut words = Words { heap, words };
    let request = words.request()?;
    words.end()?;
    Ok(request)
}
