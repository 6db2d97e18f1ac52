//! What the lines of a script ask for.

ghost use Rattle.std.specs.Prelude.{◌≡◌, is_none, length, ◌==◌, ◌&&◌};
ghost use Rattle.session_text.specs.Commands.{is_built, is_built_id, is_built_put, is_built_order};

use blob_id::{BlobId, Bytes, Kind};
use run_words::Pathname;
use world_model::Order;

/// What a line asks for. A tag of an operation is one that no operation line before it has, any other tag is one that some line
/// has. Nodes and partitions are of the shape.
#[derive(Debug, Drop)]
pub enum Command {
    /// Nothing: a line without words, or a comment.
    Skip,
    /// Stores a blob. Its type is empty where none is given, and so are its metadata, of 1,024 bytes at most.
    Put {
        tag: Bytes,
        source: BlobSource,
        ctype: Bytes,
        meta: Bytes,
    },
    /// Reads a blob, or where a range is given as many bytes of it from a place on, and writes them into a file where one is
    /// named.
    Get {
        tag: Bytes,
        id: IdWord,
        range: Option<(u64, u64)>,
        file: Option<Pathname>,
    },
    /// Reads the size and the properties of a blob.
    Info {
        tag: Bytes,
        id: IdWord,
    },
    Delete {
        tag: Bytes,
        id: IdWord,
    },
    /// Cancels an operation.
    Cancel {
        tag: Bytes,
    },
    /// Waits for one operation, or for all that are live.
    Wait {
        tag: Option<Bytes>,
    },
    /// From here on a node is sent no requests, or is again.
    Drain {
        node: u32,
        on: bool,
    },
    /// An order to the network. Where it names two nodes they differ; each node named beside a partition holds it.
    Admin(Order),
    /// Ends the script.
    End,
}

/// Where the bytes of a blob come from.
#[derive(Debug, Drop)]
pub enum BlobSource {
    /// They stand in the line.
    Line(Bytes),
    /// They are those of a file.
    File(Pathname),
}

/// What names the blob of an operation.
#[derive(Debug, Drop)]
pub enum IdWord {
    Id(BlobId),
    /// The id that the put with this tag was answered with. A put line before has it.
    Tag(Bytes),
}

impl Command {
    /// Whether a session carries the command out. Any other one's line is answered as a bad line.
    pub fn is_built(&self) -> bool
        ensures { result ≡ is_built self.now }
    {
        match self {
            Command::Skip | Command::End => true,
            Command::Put {
                source,
                ctype,
                meta,
                ..
            } => is_built_put(source, ctype, meta),
            Command::Get {
                id,
                range,
                file,
                ..
            } => { is_built_id(id) && range.is_none() && file.is_none() }
            Command::Delete { id, .. } => is_built_id(id),
            Command::Wait { tag } => tag.is_none(),
            Command::Admin(order) => is_built_order(order),
            Command::Info { .. } | Command::Cancel { .. } | Command::Drain { .. } => false,
        }
    }
}

/// A put of bytes of the line, without a type and metadata.
fn is_built_put(source: &BlobSource, ctype: &Bytes, meta: &Bytes) -> bool
    ensures { result ≡ is_built_put source.now ctype.now meta.now }
{
    match source {
        BlobSource::Line(_) => ctype.len() == 0 && meta.len() == 0,
        BlobSource::File(_) => false,
    }
}

/// Any id but that of a composite blob.
fn is_built_id(id: &IdWord) -> bool
    ensures { result ≡ is_built_id id.now }
{
    match id {
        IdWord::Tag(_) => true,
        IdWord::Id(id) => match id.kind() {
            Kind::Composite => false,
            Kind::Simple | Kind::Chunk => true,
        },
    }
}

/// A stop or a restart.
fn is_built_order(order: &Order) -> bool
    ensures { result ≡ is_built_order order.now }
{
    match order {
        Order::Stop(_) | Order::Restart(_) => true,
        Order::Pull(..) | Order::Compact(..) | Order::Level(..) => false,
    }
}
