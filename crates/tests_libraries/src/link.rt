//! The adapters of readers and writers.
mod adapters;
