//! Tests of the libraries: rows of the standards, writers and readers that fail, and what no clause says.
#![tactic(auto)]

#[cfg(test)]
mod dump_records_rows;
#[cfg(test)]
mod example_gateway_rows;
#[cfg(test)]
mod example_recorder_rows;
#[cfg(test)]
mod example_repack_rows;
#[cfg(test)]
mod job_loop_rows;
#[cfg(test)]
mod net_jobs_rows;
#[cfg(test)]
mod opus_feed_rows;
#[cfg(test)]
mod opus_flen_rows;
#[cfg(test)]
mod opus_head_rows;
#[cfg(test)]
mod opus_io_rows;
#[cfg(test)]
mod opus_make_rows;
#[cfg(test)]
mod opus_multi_feed_rows;
#[cfg(test)]
mod opus_multi_rows;
#[cfg(test)]
mod opus_packet_rows;
#[cfg(test)]
mod opus_repack_rows;
#[cfg(test)]
mod opus_sdp_rows;
#[cfg(test)]
mod opus_self_rows;
#[cfg(test)]
mod opus_toc_rows;
#[cfg(test)]
mod opus_words_rows;
#[cfg(test)]
mod opus_writer_rows;
#[cfg(test)]
mod pack_jobs_rows;
#[cfg(test)]
mod pack_records_demo_rows;
#[cfg(test)]
mod pack_records_rows;
#[cfg(test)]
mod rec_store_dump_rows;
#[cfg(test)]
mod rec_store_rows;
#[cfg(test)]
mod rtp_ends_rows;
#[cfg(test)]
mod rtp_packet_rows;
#[cfg(test)]
mod stream_jobs_join_rows;
#[cfg(test)]
mod stream_jobs_rows;
#[cfg(test)]
mod stream_records_rows;
#[cfg(test)]
mod table;
#[cfg(test)]
mod text_jobs_rows;
#[cfg(test)]
mod text_numbers_rows;
