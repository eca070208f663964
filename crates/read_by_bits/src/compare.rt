// Whether the reader gives what was decoded, record by record, and again behind the last.
// Its answers are put into the decoder's own types and compared there, not by the core's own equality.
use super::decode::{Decoded, Item, Refused, Times};
use lineup::{ReadFault, Reader, Record, read_rows};
use row::RowNumbers;

impl From<RowNumbers> for Times {
    fn from(numbers: RowNumbers) -> Times {
        match numbers {
            RowNumbers::Track {
                period,
                deadline,
                short,
                long,
            } => Times {
                period,
                deadline,
                short,
                long: Some(long),
            },
            RowNumbers::Helper {
                period,
                deadline,
                short,
            } => Times {
                period,
                deadline,
                short,
                long: None,
            },
        }
    }
}

impl<'a> From<Record<'a>> for Item<'a> {
    fn from(record: Record<'a>) -> Item<'a> {
        match record {
            Record::Row(numbers) => Item::Row(Times::from(numbers)),
            Record::Label { offset, bytes } => Item::Label { offset, bytes },
            Record::End => Item::End,
        }
    }
}

impl From<ReadFault> for Refused {
    fn from(fault: ReadFault) -> Refused {
        Refused {
            number: fault.refusal.number(),
            offset: fault.offset,
        }
    }
}

fn next_read<'a>(reader: &mut Reader<'a>) -> Result<Option<Item<'a>>, Refused> {
    Ok(reader.next()?.map(Item::from))
}

// What a read behind the last record answers: none, or the refusal where there is one.
fn last_read<'a>(decoded: &Decoded<'a>) -> Result<Option<Item<'a>>, Refused> {
    decoded.refused.map_or(Ok(None), |refused| Err(refused))
}

pub(crate) fn same_reads(input: &[u8], decoded: &Decoded<'_>) -> bool {
    let mut reader = Reader::new(input);
    let same = decoded
        .items
        .iter()
        .all(|item| next_read(&mut reader) == Ok(Some(*item)));
    // once more, since a refused read leaves the reader in its place
    same && next_read(&mut reader) == last_read(decoded)
        && next_read(&mut reader) == last_read(decoded)
}

// The times of a row, or none for another record.
fn row_in(item: &Item<'_>) -> Option<Times> {
    match item {
        Item::Row(times) => Some(*times),
        _ => None,
    }
}

pub(crate) fn same_rows(input: &[u8], decoded: &Decoded<'_>) -> bool {
    match read_rows(input) {
        Ok(rows) => {
            let rows = rows.as_slice().iter().copied().map(Times::from);
            decoded.refused.is_none() && rows.eq(decoded.items.iter().filter_map(row_in))
        }
        Err(fault) => decoded.refused == Some(Refused::from(fault)),
    }
}
