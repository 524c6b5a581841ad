//! The values of the limits.

ghost use Rattle.std.specs.Prelude.{◌≡◌, ◌^◌, ◌+◌, ◌-◌};
ghost use Rattle.oc_base.specs.declared.limits.TheConstants.{
  MAX_NODES,
  MAX_CHAIN,
  MAX_DEPTH,
  MAX_ANCESTORS,
  MAX_CHECK_IN_CERTS,
  MAX_AREA,
  MAX_HOPS,
  MAX_RATE,
  MAX_TIME,
  LAST_SECOND,
  MAX_BASE_ACKED,
  MAX_LOG_LENGTH,
  MIN_NAME_BYTES,
  MAX_NAME_BYTES,
  MAX_GROUPS,
  MAX_GROUP_BYTES,
  MAX_PUBLISH_BYTES,
  MAX_CHUNK_BYTES,
  USUAL_CHUNK_BYTES,
  MAX_START,
  MAX_FRAME_BYTES,
  MAX_FRAME_RECORDS,
  MAX_JOURNAL_BYTES,
  DUE_BYTES,
  MAX_SCHEDULE_LINES,
  MAX_SCHEDULE_BYTES,
  MAX_SCHEDULE_PUBLISHED,
  MAX_SCHEDULE_SETTLES,
  MAX_HEAD_BYTES,
  MAX_FIELDS,
  MAX_BODY_BYTES,
  MAX_CONTENT_BYTES,
};
ghost use Rattle.oc_commands.specs.declared.token.TheConstants.{MAX_TOKEN_BYTES};
ghost use Rattle.oc_config.specs.declared.config.TheConstants.{FIRST_CHUNK, MAX_CHUNK};
ghost use Rattle.oc_client.specs.declared.download.TheConstants.{MAX_REDIRECTIONS};
ghost use Rattle.oc_client.specs.declared.input.TheConstants.{PUT_PIECE_BYTES};
ghost use Rattle.oc_client.specs.declared.reply_framing.TheConstants.{MAX_OPEN_BYTES};
ghost use Rattle.oc_io.specs.declared.disk.TheConstants.{MAX_RELIABLE_BYTES};
ghost use Rattle.oc_policy.specs.declared.deciding.TheConstants.{MAX_RULES};
ghost use Rattle.oc_policy.specs.declared.token.TheConstants.{MAX_TOKEN_BYTES as RULE_TOKEN_BYTES};
ghost use Rattle.oc_probe.specs.declared.rate.TheConstants.{PROBE_BYTES};
ghost use Rattle.oc_probe.specs.declared.recent.TheConstants.{KEPT as KEPT_RATES};
ghost use Rattle.oc_routes.specs.declared.connections.TheConstants.{MAX_REQUESTS};
ghost use Rattle.oc_routes.specs.declared.content.TheConstants.{PIECE_BYTES};
ghost use Rattle.oc_routes.specs.declared.waiting.TheConstants.{FOLLOW_MILLIS, IDLE_MILLIS};
ghost use Rattle.oc_merge.specs.declared.fault.TheConstants.{MAX_RECORD_BYTES, MAX_RECORD_LINES, MAX_RECORD_PUBLISHED};
ghost use Rattle.oc_schedule.specs.declared.generating.TheConstants.{MAX_GENERATED_EVENTS};
ghost use Rattle.oc_schedule.specs.declared.scale.TheConstants.{MAX_LARGE_BYTES, MAX_LARGE_LINES, MAX_LARGE_PUBLISHED};
ghost use Rattle.oc_deeds.specs.declared.choosing.TheConstants.{MAX_DIALS, MAX_OTHER_DIALS};
ghost use Rattle.oc_deeds.specs.declared.outbox.TheConstants.{MAX_OUTBOX};
ghost use Rattle.oc_deeds.specs.declared.pace.TheConstants.{LEAST_INTERVAL, MOST_INTERVAL};
ghost use Rattle.oc_updown.specs.declared.leases.TheConstants.{LEASE_TIME};
ghost use Rattle.oc_words.specs.declared.request.TheConstants.{ENDLESS, MAX_EVENTS, MAX_FOLLOWED, MAX_TURNS};

/// The limits, as the protocol's pages give them. Contracts cite the constants, and this law states
/// the values that operators, clients and other nodes meet, so that none of these can change
/// unseen.
pub fn limits_are_as_published()
    ensures network { (MAX_NODES ≡ 1024) × (MAX_CHAIN ≡ 16) × (MAX_AREA ≡ 255) × (MAX_DEPTH ≡ 1000) × (MAX_ANCESTORS ≡ 1000) }
    ensures measures { (MAX_RATE ≡ 2 ^ 40) × (MAX_HOPS ≡ 255) × (MAX_TIME ≡ 2 ^ 40) × (LAST_SECOND ≡ 2 ^ 41) × (LEASE_TIME ≡ 30) }
    ensures content { (MIN_NAME_BYTES ≡ 2) × (MAX_NAME_BYTES ≡ 200) × (MAX_GROUPS ≡ 64) × (MAX_GROUP_BYTES ≡ 2 ^ 40) × (MAX_START ≡ 2 ^ 40)
        × (MAX_PUBLISH_BYTES ≡ 1000000) × (PIECE_BYTES ≡ 262144) }
    ensures messages { (MAX_CHUNK_BYTES ≡ 524288) × (MAX_CHUNK ≡ 524288) × (USUAL_CHUNK_BYTES ≡ 4096) × (FIRST_CHUNK ≡ 262144) × (MAX_CHECK_IN_CERTS ≡ 64)
        × (MAX_OUTBOX ≡ 1024) × (MAX_DIALS ≡ 32) × (MAX_OTHER_DIALS ≡ 16) × (LEAST_INTERVAL ≡ 100) × (MOST_INTERVAL ≡ 1000) }
    ensures files { (MAX_FRAME_BYTES ≡ 1048576) × (MAX_FRAME_RECORDS ≡ 4096) × (MAX_JOURNAL_BYTES ≡ 2 ^ 48) × (DUE_BYTES ≡ 262144) × (MAX_BASE_ACKED ≡ 2 ^ 62)
        × (MAX_LOG_LENGTH ≡ 2 ^ 62 + 2 ^ 48) × (MAX_RELIABLE_BYTES ≡ 2 ^ 48) }
    ensures schedules { (MAX_SCHEDULE_LINES ≡ 100000) × (MAX_SCHEDULE_BYTES ≡ 67108864) × (MAX_SCHEDULE_PUBLISHED ≡ 262144) × (MAX_SCHEDULE_SETTLES ≡ 16)
        × (MAX_GENERATED_EVENTS ≡ 99999) × (MAX_EVENTS ≡ 99999) }
    ensures large { (MAX_LARGE_LINES ≡ 10000000) × (MAX_LARGE_BYTES ≡ 2 ^ 32) × (MAX_LARGE_PUBLISHED ≡ 2 ^ 32)
        × (MAX_RECORD_LINES ≡ 10000000) × (MAX_RECORD_BYTES ≡ 2 ^ 32) × (MAX_RECORD_PUBLISHED ≡ 2 ^ 32) }
    ensures requests { (MAX_HEAD_BYTES ≡ 8192) × (MAX_FIELDS ≡ 64) × (MAX_BODY_BYTES ≡ 1000000) × (MAX_REQUESTS ≡ 1000) × (MAX_RULES ≡ 256)
        × (RULE_TOKEN_BYTES ≡ 200) × (IDLE_MILLIS ≡ 30000) × (FOLLOW_MILLIS ≡ 10000) × (MAX_TURNS ≡ 10 ^ 9) × (ENDLESS ≡ 2 ^ 64 - 1) }
    ensures clients { (MAX_REDIRECTIONS ≡ 2) × (MAX_CONTENT_BYTES ≡ 2 ^ 40) × (MAX_OPEN_BYTES ≡ 2 ^ 40) × (MAX_FOLLOWED ≡ 10 ^ 6)
        × (PUT_PIECE_BYTES ≡ 524288) × (MAX_TOKEN_BYTES ≡ 200) }
    ensures probes { (PROBE_BYTES ≡ 10240) × (KEPT_RATES ≡ 5) }
{}
