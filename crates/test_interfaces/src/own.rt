// Services that nobody built, each described by a text of version 3.

/// A semaphore: a client that takes it waits while its count is 0.
pub static SEMAPHORE: &[u8] = b"service_global_info = {\n\
\x20   version = 3,\n\
\x20   service = semaphore,\n\
\x20   desc_has_parent = none,\n\
\x20   desc_close = refuse,\n\
\x20   desc_is_global = true,\n\
\x20   desc_block = true,\n\
\x20   desc_has_data = true,\n\
\x20   resc_has_data = false,\n\
\x20   desc_recover = demand\n\
};\n\
sm_creation(sem_make);\n\
sm_terminal(sem_free);\n\
sm_block(sem_down);\n\
sm_wakeup(sem_up);\n\
sm_keep(sem_down);\n\
sm_keep(sem_up);\n\
sm_transition(sem_make, sem_down);\n\
sm_transition(sem_make, sem_up);\n\
sm_transition(sem_make, sem_free);\n\
unsigned long sem_make(spdid_t spdid, unsigned long desc_data(count));\n\
int sem_down(spdid_t spdid, unsigned long desc(id));\n\
desc_data_sub(sem_down, count);\n\
int sem_up(spdid_t spdid, unsigned long desc(id), unsigned long desc_data_add(count));\n\
int sem_free(spdid_t spdid, unsigned long desc(id));\n\
desc_data_most(count, 65535);\n\
sm_answer(sem_down) {\n\
\x20   wait if count is 0;\n\
}\n";

/// A lock that many may read or one may write.
pub static RWLOCK: &[u8] = b"service_global_info = {\n\
\x20   version = 3,\n\
\x20   service = rwlock,\n\
\x20   desc_has_parent = none,\n\
\x20   desc_close = refuse,\n\
\x20   desc_is_global = true,\n\
\x20   desc_block = true,\n\
\x20   desc_has_data = true,\n\
\x20   resc_has_data = false,\n\
\x20   desc_recover = demand\n\
};\n\
// Many may read at once, or one writes. `rw_readers` and `rw_owner` are called in replays alone: no transition leads to them.\n\
sm_creation(rw_make);\n\
sm_terminal(rw_free);\n\
sm_block(rw_read);\n\
sm_block(rw_write);\n\
sm_wakeup(rw_unread);\n\
sm_wakeup(rw_unwrite);\n\
sm_keep(rw_read);\n\
sm_keep(rw_unread);\n\
sm_keep(rw_readers);\n\
sm_state(rw_unwrite, rw_make);\n\
sm_state(rw_owner, rw_write);\n\
sm_transition(rw_make, rw_read);\n\
sm_transition(rw_make, rw_write);\n\
sm_transition(rw_make, rw_unread);\n\
sm_transition(rw_make, rw_free);\n\
sm_transition(rw_write, rw_read);\n\
sm_transition(rw_write, rw_write);\n\
sm_transition(rw_write, rw_unwrite);\n\
sm_recover(rw_make, rw_readers);\n\
sm_recover(rw_make, rw_owner);\n\
unsigned long rw_make(spdid_t spdid);\n\
int rw_read(spdid_t spdid, unsigned long desc(id), unsigned long desc_data_add(readers));\n\
int rw_write(spdid_t desc_data(writer), unsigned long desc(id));\n\
int rw_unread(spdid_t spdid, unsigned long desc(id));\n\
desc_data_sub(rw_unread, readers);\n\
int rw_unwrite(spdid_t spdid, unsigned long desc(id));\n\
desc_data_clear(rw_unwrite, writer);\n\
int rw_readers(spdid_t spdid, unsigned long desc(id), unsigned long desc_data(readers));\n\
int rw_owner(spdid_t desc_data(writer), unsigned long desc(id));\n\
int rw_free(spdid_t spdid, unsigned long desc(id));\n\
desc_data_most(readers, 64);\n\
desc_data_most(writer, 64);\n\
sm_answer(rw_read) {\n\
\x20   refuse TooBig if $2 is not 1;\n\
\x20   wait if writer above 0;\n\
}\n\
sm_answer(rw_write) {\n\
\x20   refuse Held if writer is caller;\n\
\x20   wait if writer above 0;\n\
\x20   wait if readers above 0;\n\
}\n\
sm_answer(rw_unread) {\n\
\x20   refuse NotOwner if readers is 0;\n\
}\n\
sm_answer(rw_unwrite) {\n\
\x20   refuse NotOwner if writer is not caller;\n\
}\n\
sm_answer(rw_free) {\n\
\x20   refuse Held if readers above 0;\n\
}\n";

/// A channel with room for so many items, which are counted.
pub static CHANNEL: &[u8] = b"service_global_info = {\n\
\x20   version = 3,\n\
\x20   service = channel,\n\
\x20   desc_has_parent = none,\n\
\x20   desc_close = refuse,\n\
\x20   desc_is_global = true,\n\
\x20   desc_block = true,\n\
\x20   desc_has_data = true,\n\
\x20   resc_has_data = false,\n\
\x20   desc_recover = demand\n\
};\n\
// A channel counts its items and has room for so many; what the items are passes beside it.\n\
sm_creation(ch_make);\n\
sm_terminal(ch_close);\n\
sm_block(ch_send);\n\
sm_block(ch_receive);\n\
sm_wakeup(ch_send);\n\
sm_wakeup(ch_receive);\n\
sm_keep(ch_send);\n\
sm_keep(ch_receive);\n\
sm_keep(ch_fill);\n\
sm_transition(ch_make, ch_send);\n\
sm_transition(ch_make, ch_receive);\n\
sm_transition(ch_make, ch_close);\n\
sm_recover(ch_make, ch_fill);\n\
unsigned long ch_make(spdid_t spdid, unsigned long desc_data(room));\n\
int ch_send(spdid_t spdid, unsigned long desc(id), unsigned long desc_data_add(items));\n\
int ch_receive(spdid_t spdid, unsigned long desc(id));\n\
desc_data_sub(ch_receive, items);\n\
int ch_fill(spdid_t spdid, unsigned long desc(id), unsigned long desc_data(items));\n\
int ch_close(spdid_t spdid, unsigned long desc(id));\n\
desc_data_most(room, 1024);\n\
desc_data_most(items, 1024);\n\
sm_answer(ch_send) {\n\
\x20   refuse TooBig if $2 is not 1;\n\
\x20   wait if room is items;\n\
}\n\
sm_answer(ch_receive) {\n\
\x20   wait if items is 0;\n\
}\n\
sm_answer(ch_close) {\n\
\x20   refuse Held if items above 0;\n\
}\n";

/// A lease: it is its taker's up to a deadline.
pub static LEASE: &[u8] = b"service_global_info = {\n\
\x20   version = 3,\n\
\x20   service = lease,\n\
\x20   desc_has_parent = none,\n\
\x20   desc_close = refuse,\n\
\x20   desc_is_global = true,\n\
\x20   desc_block = false,\n\
\x20   desc_has_data = true,\n\
\x20   resc_has_data = false,\n\
\x20   desc_recover = demand\n\
};\n\
// A lease is its taker's up to a deadline; whoever asks says what time it is.\n\
sm_creation(lease_make);\n\
sm_terminal(lease_drop);\n\
sm_state(lease_return, lease_make);\n\
sm_state(lease_place, lease_take);\n\
sm_keep(lease_renew);\n\
sm_transition(lease_make, lease_take);\n\
sm_transition(lease_make, lease_drop);\n\
sm_transition(lease_take, lease_take);\n\
sm_transition(lease_take, lease_renew);\n\
sm_transition(lease_take, lease_return);\n\
sm_recover(lease_make, lease_place);\n\
unsigned long lease_make(spdid_t spdid);\n\
int lease_take(spdid_t desc_data(owner), unsigned long desc(id), unsigned long now, unsigned long desc_data(deadline));\n\
int lease_renew(spdid_t spdid, unsigned long desc(id), unsigned long desc_data(deadline));\n\
int lease_return(spdid_t spdid, unsigned long desc(id));\n\
desc_data_clear(lease_return, owner);\n\
desc_data_clear(lease_return, deadline);\n\
int lease_place(spdid_t desc_data(owner), unsigned long desc(id), unsigned long desc_data(deadline));\n\
int lease_drop(spdid_t spdid, unsigned long desc(id));\n\
desc_data_most(owner, 64);\n\
sm_answer(lease_take) {\n\
\x20   refuse Held if owner above 0, $2 below deadline;\n\
\x20   refuse TooBig if $3 below $2;\n\
}\n\
sm_answer(lease_renew) {\n\
\x20   refuse NotOwner if owner is not caller;\n\
\x20   refuse TooBig if $2 below deadline;\n\
}\n\
sm_answer(lease_return) {\n\
\x20   refuse NotOwner if owner is not caller;\n\
}\n";

/// A device that one client at a time claims.
pub static DEVICE: &[u8] = b"service_global_info = {\n\
\x20   version = 3,\n\
\x20   service = device,\n\
\x20   desc_has_parent = none,\n\
\x20   desc_close = refuse,\n\
\x20   desc_is_global = true,\n\
\x20   desc_block = false,\n\
\x20   desc_has_data = true,\n\
\x20   resc_has_data = false,\n\
\x20   desc_recover = demand\n\
};\n\
// A device is opened, claimed by one client at a time, set to a level, and released.\n\
sm_creation(dev_open);\n\
sm_terminal(dev_close);\n\
sm_state(dev_release, dev_open);\n\
sm_keep(dev_set);\n\
sm_transition(dev_open, dev_claim);\n\
sm_transition(dev_open, dev_close);\n\
sm_transition(dev_claim, dev_claim);\n\
sm_transition(dev_claim, dev_set);\n\
sm_transition(dev_claim, dev_release);\n\
sm_recover(dev_open, dev_place);\n\
sm_recover(dev_open, dev_claim);\n\
sm_keep(dev_place);\n\
unsigned long dev_open(spdid_t spdid, unsigned long desc_data(unit));\n\
int dev_claim(spdid_t desc_data(owner), unsigned long desc(id));\n\
int dev_set(spdid_t spdid, unsigned long desc(id), unsigned long desc_data(level));\n\
int dev_release(spdid_t spdid, unsigned long desc(id));\n\
desc_data_clear(dev_release, owner);\n\
int dev_place(spdid_t spdid, unsigned long desc(id), unsigned long desc_data(level));\n\
int dev_close(spdid_t spdid, unsigned long desc(id));\n\
desc_data_most(owner, 64);\n\
desc_data_most(unit, 15);\n\
desc_data_most(level, 1000);\n\
sm_answer(dev_claim) {\n\
\x20   refuse Held if owner above 0;\n\
}\n\
sm_answer(dev_set) {\n\
\x20   refuse NotOwner if owner is not caller;\n\
\x20   refuse TooBig if $2 above 1000;\n\
}\n\
sm_answer(dev_release) {\n\
\x20   refuse NotOwner if owner is not caller;\n\
}\n";

/// Sockets, which have a state each.
pub static SOCKETS: &[u8] = b"service_global_info = {\n\
\x20   version = 3,\n\
\x20   service = sockets,\n\
\x20   desc_has_parent = none,\n\
\x20   desc_close = refuse,\n\
\x20   desc_is_global = true,\n\
\x20   desc_block = false,\n\
\x20   desc_has_data = true,\n\
\x20   resc_has_data = false,\n\
\x20   desc_recover = demand\n\
};\n\
// A socket is made, bound to a port, and then listens or is connected to a peer.\n\
sm_creation(so_make);\n\
sm_terminal(so_close);\n\
sm_transition(so_make, so_bind);\n\
sm_transition(so_make, so_connect);\n\
sm_transition(so_make, so_close);\n\
sm_transition(so_bind, so_listen);\n\
sm_transition(so_bind, so_connect);\n\
sm_transition(so_bind, so_close);\n\
sm_transition(so_listen, so_close);\n\
sm_transition(so_connect, so_close);\n\
sm_recover(so_make, so_bind);\n\
sm_recover(so_make, so_connect);\n\
sm_recover(so_bind, so_listen);\n\
sm_recover(so_bind, so_connect);\n\
unsigned long so_make(spdid_t spdid);\n\
int so_bind(spdid_t spdid, unsigned long desc(id), unsigned long desc_data(port));\n\
int so_listen(spdid_t spdid, unsigned long desc(id), unsigned long desc_data(backlog));\n\
int so_connect(spdid_t spdid, unsigned long desc(id), unsigned long desc_data(peer));\n\
int so_close(spdid_t spdid, unsigned long desc(id));\n\
desc_data_most(port, 65535);\n\
desc_data_most(backlog, 128);\n";
