//! Columns of tables.

/// A column of a table.
#[derive(Drop)]
pub(crate) struct Column {
    pub(crate) name: Vec<u8>,
    /// Which of the keys of its kind it is.
    pub(crate) position: u64,
    pub(crate) kind: ColumnKind,
    /// Its type, as system_schema has it.
    pub(crate) type_text: Vec<u8>,
}

/// The kinds of columns, in the order of `*`.
#[derive(Clone, Copy)]
pub(crate) enum ColumnKind {
    PartitionKey,
    Clustering,
    Static,
    Regular,
}

impl ColumnKind {
    /// The kind with this name.
    pub(crate) fn named(name: &str) -> Option<ColumnKind> {
        match name {
            "partition_key" => Some(ColumnKind::PartitionKey),
            "clustering" => Some(ColumnKind::Clustering),
            "static" => Some(ColumnKind::Static),
            "regular" => Some(ColumnKind::Regular),
            _ => None,
        }
    }

    fn rank(self) -> u8 {
        match self {
            ColumnKind::PartitionKey => 0,
            ColumnKind::Clustering => 1,
            ColumnKind::Static => 2,
            ColumnKind::Regular => 3,
        }
    }
}

impl Column {
    /// Whether it comes before another one in `*`: keys by their positions, and then the others by their names.
    fn is_before(&self, other: &Column) -> bool {
        let rank = self.kind.rank();
        let rank_of_other = other.kind.rank();
        if rank != rank_of_other {
            return rank < rank_of_other;
        }
        if self.position != other.position {
            return self.position < other.position;
        }
        self.name < other.name
    }
}

/// How many of a table's columns come before another one in `*`.
pub(crate) fn place_of(columns: &[Column], column: &Column) -> usize {
    let mut place: usize = 0;
    for other in columns {
        if other.is_before(column) {
            place = place.saturating_add(1);
        }
    }
    place
}
