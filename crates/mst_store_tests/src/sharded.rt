//! Blocks of a sharded map and snapshots of them, of what no other language sees: a writer and a
//! reader that go to other threads, blocks whose parts are prepared in threads, snapshots that are
//! dropped. Blocks at random with all reads and proofs of their snapshots, three readers beside a
//! writer, refused growths, full shards, maps that outlive their writer and root digests of equal
//! content are tested in C (`tests/store/blocks_walk.c`, `blocks_threads.c`, `blocks_nomem.c`,
//! `blocks_full.c`, `blocks.c`), directories in Python (`tests/store/test_sharded_maps.py`), and
//! their audits in `mst_tree_tests`.
mod blocks;
mod maps;
mod parts;
mod shares;
mod threads;
