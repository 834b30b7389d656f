//! A head, which always keeps the conditions of the standard.
ghost use Rattle.std.specs.Prelude.{◌≡◌, ◌≤◌, ◌<◌, []};
ghost use Rattle.opus_head.specs.Channel.{streams_of, coupled_of};
ghost use Rattle.opus_head.specs.Factors.{factors_of, table_entries, factor_at};

use crate::Table;
use byteorder::{ByteOrder, LittleEndian};
use opus_io::Bytes;
use std::alloc::Global;
use std::marker::Model;

/// The identification header of an Ogg Opus stream (RFC 7845, 5.1).
#[derive(Drop)]
pub struct Head {
    pub(crate) version: u8,
    pub(crate) channels: u8,
    pub(crate) pre_skip: u16,
    pub(crate) rate: u32,
    pub(crate) gain: i16,
    pub(crate) family: u8,
    pub(crate) table: Table,
    pub(crate) extra: Bytes,
}

impl Model for Head {
    ghost use Rattle.opus_head.specs.HeadValue.{HeadValue};

    ghost Value = { HeadValue };

    ghost use Rattle.opus_head.specs.Inside.{value_inside, IsHeadInside};

    ghost view = { value_inside };

    ghost invariant = { IsHeadInside };
}

impl Head {
    /// A head of version 1 and family 0, for one or two channels.
    ///
    /// The pre-skip counts samples at 48 kHz, the rate is in hertz, and the gain in 1/256 dB.
    pub fn simple(alloc: Global, channels: u8, pre_skip: u16, rate: u32, gain: i16) -> Head
        requires some { 1 ≤ channels }
        requires most { channels ≤ 2 }
        ensures version { result.version ≡ 1 }
        ensures channels { result.channels ≡ channels }
        ensures pre_skip { result.pre_skip ≡ pre_skip }
        ensures rate { result.rate ≡ rate }
        ensures gain { result.gain ≡ gain }
        ensures family { result.family ≡ 0 }
        ensures table { result.table ≡ Table.None }
        ensures extra { result.extra ≡ [] }
    {
        Head {
            version: 1,
            channels,
            pre_skip,
            rate,
            gain,
            family: 0,
            table: Table::None,
            extra: Bytes::from_vec(Vec::new(alloc)),
        }
    }

    /// The version, 0 to 15.
    pub fn version(&self) -> u8
        ensures { result ≡ self.now.version }
    {
        self.version
    }

    /// The bytes that follow the table, in other versions than 1.
    pub fn extra(&self) -> &[u8]
        ensures { result.now ≡ self.now.extra }
    {
        self.extra.as_slice()
    }

    /// The channel mapping family, as it was read.
    pub fn family(&self) -> u8
        ensures { result ≡ self.now.family }
    {
        self.family
    }

    /// The channel mapping table.
    pub fn table(&self) -> &Table
        ensures { result.now ≡ self.now.table }
    {
        &self.table
    }

    /// The factor at index `i` of the matrix, in the order of the file.
    pub fn entry(&self, i: usize) -> i16
        requires { i < factors_of self.now }
        ensures { result ≡ factor_at (table_entries self.now.table) i }
    {
        match &self.table {
            Table::Matrix { entries, .. } => LittleEndian::read_i16(&entries.as_slice()[2 * i..]),
            _ => 0,
        }
    }

    /// The sample rate of the original input, in hertz, or 0 where it isn't told. It isn't the rate to play at.
    pub fn rate(&self) -> u32
        ensures { result ≡ self.now.rate }
    {
        self.rate
    }

    /// Streams in each packet, at least 1.
    pub fn streams(&self) -> u8
        ensures { result ≡ streams_of self.now }
    {
        match &self.table {
            Table::None => 1,
            Table::Map { streams, .. } | Table::Matrix { streams, .. } => *streams,
        }
    }

    /// How many of the streams, the first ones, are decoded to two channels.
    pub fn coupled(&self) -> u8
        ensures { result ≡ coupled_of self.now }
    {
        match &self.table {
            Table::None => self.channels - 1,
            Table::Map { coupled, .. } | Table::Matrix { coupled, .. } => *coupled,
        }
    }

    /// Samples at 48 kHz to drop from the decoder's output at the start.
    pub fn pre_skip(&self) -> u16
        ensures { result ≡ self.now.pre_skip }
    {
        self.pre_skip
    }

    /// Output channels, at least 1.
    pub fn channels(&self) -> u8
        ensures value { result ≡ self.now.channels }
        ensures some { 1 ≤ result }
    {
        self.channels
    }

    /// What the decoder's output is to be raised by, in 1/256 dB.
    pub fn gain(&self) -> i16
        ensures { result ≡ self.now.gain }
    {
        self.gain
    }
}
